// Units: what an object uses, and what it has to spare.
ghost use Rattle.std.specs.Prelude.{◌≡◌, ◌*◌, ◌<◌, ◌≤◌};
ghost use Rattle.rules.specs.Kernel.{max_length};
ghost use Rattle.rules.specs.Kernel as kernel;
ghost use Rattle.tables.specs.Layout.{view, link_count};
ghost use Rattle.book.specs.Sound.{Live, Sound, charged_to};
ghost use Rattle.book.specs.Units.{charge_of, use_at, spare_at};

use super::find::{kind_at, len_of};
use super::kinds::Kind;
use super::limits::{BLOCK_SIZE, ROUND_UP};
use tables::{Book, LINK_FROM, LINK_TO, LINKS, QUOTA, Row};

// The size of a block, and what rounds up, as numbers of bytes are counted here.
const BLOCK: u64 = BLOCK_SIZE as u64;

const UP: u64 = ROUND_UP as u64;

// The units of a segment of n bytes.
#[tactic(auto, unfolding(rules::specs::Kernel::units))]
pub fn units(n: u64) -> u64
    requires { n ≤ max_length }
    ensures { result ≡ kernel.units n }
{
    1 + (n + UP) / BLOCK
}

// That the book is sound is said by each contract, not by a type: a call that writes one has it as bytes, and Sound would have to be shown
// of each step in between.

// What link l charges the container at row c with.
#[tactic(auto, unfolding(quotas::specs::Sum::when))]
fn charge(b: &Book, c: Row, l: usize) -> u64
    requires { Sound (view b.now) × (l < link_count) }
    ensures { (result ≡ charge_of (view b.now) c l) × (result < 65536) }
{
    if LINK_FROM.get(b, l) != u16::from(c) + 1 {
        return 0;
    }
    u64::from(QUOTA.get(b, LINK_TO.get(b, l) as Row))
}

// The quotas of all that is linked in the container at row c.
#[tactic(auto, using(crate::specs::Laws::Units::charged_none, crate::specs::Laws::Units::charged_more, crate::specs::Laws::Units::charged_all))]
fn charged(b: &Book, c: Row) -> u64
    requires { Sound (view b.now) }
    ensures { (result ≡ charged_to (view b.now) c) × (result ≤ link_count * 65536) }
{
    let mut sum: u64 = 0;
    for l in 0..LINKS {
        sum += charge(b, c, l);
    }
    sum
}

// What the object at row r uses.
#[tactic(auto, unfolding(crate::specs::Kinds::kind_with, crate::specs::Units::use_at))]
pub fn use_of(b: &Book, r: Row) -> u64
    requires { Sound (view b.now) × Live (view b.now) r }
    ensures { result ≡ use_at (view b.now) r }
{
    match kind_at(b, r) {
        Some(Kind::Container) => 1 + charged(b, r),
        Some(Kind::Segment) => units(len_of(b, r)),
        _ => 1,
    }
}

// RULES 3.4: "An object's spare is its quota minus the units it uses."
#[tactic(auto, using(crate::specs::Laws::Units::use_within), unfolding(crate::specs::Units::spare_at))]
pub fn spare_of(b: &Book, r: Row) -> u64
    requires { Sound (view b.now) × Live (view b.now) r }
    ensures { result ≡ spare_at (view b.now) r }
{
    let used = use_of(b, r);
    super::find::quota_of(b, r) - used
}
