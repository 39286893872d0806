// Numbers that bytes spell, the lowest byte first.
ghost use Rattle.std.specs.Prelude.{◌≡◌, refl, ℕ, ◌+◌, ◌^◌, ◌≤◌, ◌<◌, List, length, get_or};
ghost use Rattle.std.proofs.lemmas.Grind.{get_or_default_zero};
ghost use Rattle.labels.specs.Le.{le_at, le_set};

pub trait Number: Copy {
    // How many bytes a number takes.
    ghost WIDTH: { ℕ };

    const WIDTH: usize;

    // The number itself, and those of a list.
    ghost value: { Self → ℕ };

    ghost values: { List Self → List ℕ };

    // The number that the bytes at `from` spell.
    fn get(b: &[u8], from: usize) -> Self
        requires { from + WIDTH ≤ length b.now }
        ensures { value result ≡ le_at WIDTH b.now from };

    // Writes the number into the bytes at `from`.
    fn put(self, b: &mut [u8], from: usize)
        requires { from + WIDTH ≤ length b.old }
        ensures { (b.new ≡ le_set WIDTH b.old from (value self)) × (value self < 256 ^ WIDTH) };

    // `values` is `value` at each place.
    ghost many: { (xs : List Self) → length (values xs) ≡ length xs };

    ghost each: { (xs : List Self) (i : ℕ) (d : Self) → i < length xs → value (get_or xs i d) ≡ get_or (values xs) i 0 };
}

impl Number for u8 {
    ghost WIDTH = { 1 };

    const WIDTH: usize = 1;

    ghost value = { λ x. x };

    ghost values = { λ xs. xs };

    ghost many = { λ xs. refl };

    ghost each = { get_or_default_zero };

    fn get(b: &[u8], from: usize) -> u8 {
        b[from]
    }

    fn put(self, b: &mut [u8], from: usize) {
        b[from] = self;
    }
}

impl Number for u16 {
    ghost WIDTH = { 2 };

    const WIDTH: usize = 2;

    ghost value = { λ x. x };

    ghost values = { λ xs. xs };

    ghost many = { λ xs. refl };

    ghost each = { get_or_default_zero };

    fn get(b: &[u8], from: usize) -> u16 {
        u16::from_le_bytes([b[from], b[from + 1]])
    }

    fn put(self, b: &mut [u8], from: usize) {
        b[from..from + 2].copy_from_slice(&self.to_le_bytes());
    }
}

impl Number for u64 {
    ghost WIDTH = { 8 };

    const WIDTH: usize = 8;

    ghost value = { λ x. x };

    ghost values = { λ xs. xs };

    ghost many = { λ xs. refl };

    ghost each = { get_or_default_zero };

    fn get(b: &[u8], from: usize) -> u64 {
        let Some(bytes) = b[from..from + 8].as_array() else {
            unreachable!()
        };
        u64::from_le_bytes(*bytes)
    }

    fn put(self, b: &mut [u8], from: usize) {
        b[from..from + 8].copy_from_slice(&self.to_le_bytes());
    }
}
