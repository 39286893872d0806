// Labels where they are held, in the book or in bytes that are lent: what looks at a label's words reads them there, and copies none.
ghost use Rattle.std.specs.Prelude.{◌≡◌, ◌++◌, ◌+◌, ◌*◌, ◌/◌, ◌<◌, ◌≤◌, length, get_or, take, drop};
ghost use Rattle.labels.specs.Core.{word_count, label_size, label_of, words_bytes, spelt, meant, words_in, held_in};

use super::bytes::get_words;
use super::number::Number;
use super::{Label, LabelRef, WORDS};

// The bytes of a label's words.
const SIZE: usize = WORDS * 8;

// The bytes of a lent label: its default, then its words.
pub const LABEL_SIZE: usize = 1 + SIZE;

// The label with this default whose words stand in b from `from` on, and no byte more than they have.
#[tactic(auto, using(crate::specs::Core::InPlace::meant_held))]
pub fn held(b: &[u8], default: u64, from: usize) -> LabelRef
    ensures means { meant result ≡ held_in b.now default from }
    ensures exact { length result.words.now ≡ length (meant result).words * 8 }
{
    LabelRef {
        default,
        words: words_of(b, from),
    }
}

// The label that is lent in 65 bytes of its own.
#[tactic(auto, using(crate::specs::Core::InPlace::held_own))]
pub fn from_bytes(b: &[u8]) -> LabelRef
    requires { length b.now ≡ label_size }
    ensures means { meant result ≡ label_of b.now }
    ensures exact { length result.words.now ≡ length (meant result).words * 8 }
{
    held(b, u64::from(b[0]), 1)
}

// The bytes of the words that stand in b from `from` on: none, if they would reach past the end.
pub fn words_of(b: &[u8], from: usize) -> &[u8]
    ensures { (spelt result.now ≡ words_in b.now from) × (length result.now ≡ length (words_in b.now from) * 8) }
{
    let n = b.len();
    if n < SIZE || n - SIZE < from {
        return &b[..0];
    }
    &b[from..from + SIZE]
}

// Word i of those that the bytes spell.
#[tactic(auto, using(crate::specs::Core::InPlace::spelt_at))]
pub fn word_at(bytes: &[u8], i: usize) -> u64
    requires { i < length bytes.now / 8 }
    ensures { result ≡ get_or (spelt bytes.now) i 0 }
{
    Number::get(bytes, i * 8)
}

// The label itself: its words are copied.
#[tactic(auto, using(crate::specs::Core::InPlace::meant_length, crate::specs::Core::InPlace::meant_value))]
pub fn value(l: LabelRef) -> Label
    requires { length (meant l).words ≡ word_count }
    ensures { result ≡ meant l.entry }
{
    let mut words = [0u64; WORDS];
    get_words(l.words, 0, &mut words);
    Label {
        default: l.default,
        words,
    }
}

// Writes the words of the label l into `out` from `from` on.
#[tactic(auto, using(crate::specs::Core::InPlace::meant_length, crate::specs::Core::InPlace::put_spelt), unfolding(crate::specs::Core::meant))]
pub fn put_words(out: &mut [u8], from: usize, l: LabelRef)
    requires { from + length (meant l).words * 8 ≤ length out.old }
    ensures { out.new ≡ take from out.old ++ (words_bytes (meant l.entry).words ++ drop (from + length (meant l.entry).words * 8) out.old) }
{
    let n = l.words.len() / 8 * 8;
    out[from..from + n].copy_from_slice(&l.words[..n]);
}
