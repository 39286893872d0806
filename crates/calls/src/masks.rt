// Which kinds a container forbids.
ghost use Rattle.std.specs.Prelude.{◌≡◌, ◌≤◌, ◌<◌, ◌/◌, ◌%◌, ◌^◌, eqb};
ghost use Rattle.tables.specs.Layout.{view};
ghost use Rattle.book.specs.Kinds.{code_of_kind};
ghost use Rattle.calls.specs.Masks.{forbids_at};

use book::find::mask_of;
use book::kinds::Kind;
use tables::{Book, Row};

// Whether the mask's bit at `place` is set.
fn bit_set(mask: u64, place: u64) -> bool
    requires { place < 64 }
    ensures { result ≡ eqb (mask / 2 ^ place % 2) 1 }
{
    (mask >> place) % 2 == 1
}

// RULES 1.6: ".. bit 0 forbids threads, bit 1 gates, bit 2 segments and bit 3 containers." Whether the container at row c forbids the kind of this code.
pub fn forbids_code(b: &Book, c: Row, code: u8) -> bool
    requires { (1 ≤ code) × (code ≤ 64) }
    ensures { result ≡ forbids_at (view b.now) c code }
{
    bit_set(mask_of(b, c), u64::from(code) - 1)
}

// The same of a kind.
#[tactic(auto, using(book::specs::Laws::Kinds::code_some, book::specs::Laws::Kinds::code_most))]
pub fn forbids(b: &Book, c: Row, kind: Kind) -> bool
    ensures { result ≡ forbids_at (view b.now) c (code_of_kind kind) }
{
    forbids_code(b, c, u8::from(kind))
}
