// Text in a buffer: each function puts it at `at`, leaves every other byte as it was, and answers where the text ends. No String:
// nothing here allocates. What is printed is proved to the byte, which std's formatting does not say: io gives a number's digits, and
// the others stand here.
ghost use Rattle.std.specs.Prelude.{◌≡◌, ◌+◌, ◌*◌, ◌≤◌, ◌<◌, length};
ghost use Rattle.label_vectors.specs.Text.{put, digit_of, hex_of, decimal_of};

#[tactic(auto, using(crate::specs::Text::Laws::put_part))]
pub fn copy(out: &mut [u8], at: usize, text: &[u8]) -> usize
    requires { at + length text.now ≤ length out.old }
    ensures { (result ≡ at + length text.now) × (out.new ≡ put out.old at text.now) }
{
    let end = at + text.len();
    out[at..end].copy_from_slice(text);
    end
}

// A number never has more than 20 digits.
#[tactic(auto, using(crate::specs::Text::Laws::decimal_is))]
pub fn decimal(out: &mut [u8], at: usize, n: u64) -> usize
    requires { at + 20 ≤ length out.old }
    ensures { (result ≡ at + length (decimal_of n)) × (out.new ≡ put out.old at (decimal_of n)) }
{
    let mut text = [0u8; 20];
    let k = io::decimal(n, &mut text);
    copy(out, at, &text[..k])
}

// A hexadecimal digit, in lower case.
#[tactic(auto, unfolding(crate::specs::Text::digit_of))]
fn digit(d: u8) -> u8
    requires { d < 16 }
    ensures { result ≡ digit_of d }
{
    if d < 10 { b'0' + d } else { b'a' + (d - 10) }
}

pub fn hex(out: &mut [u8], at: usize, bytes: &[u8]) -> usize
    requires { at + length bytes.now * 2 ≤ length out.old }
    ensures { (result ≡ at + length (hex_of bytes.now)) × (out.new ≡ put out.old at (hex_of bytes.now)) }
{
    for i in 0..bytes.len() {
        let place = at + i * 2;
        out[place] = digit(bytes[i] / 16);
        out[place + 1] = digit(bytes[i] % 16);
    }
    at + bytes.len() * 2
}
