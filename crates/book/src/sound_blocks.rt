// Whether each segment has exactly its blocks and no block has two owners: there are as many used blocks as the segments need, each is one
// of its segment's, and no two are the same one. For the last, all segments' blocks are numbered one after the other.
ghost use Rattle.std.specs.Prelude.{◌≡◌, true, false, not, ◌+◌, ◌<◌, ◌≤◌, eqb, replicate};
ghost use Rattle.quotas.specs.Sum.{when};
ghost use Rattle.rules.specs.Kernel.{segment_code};
ghost use Rattle.tables.specs.Layout.{view, row_count, block_count};
ghost use Rattle.book.specs.Book.{code_of, len_of, owner_of, blocks_of};
ghost use Rattle.book.specs.Test.{every, owned_b, block_b, needed_blocks, blocks_b};
ghost use Rattle.book.specs.Seen.{number_of, Offsets, Seen};

use super::find::kind_at;
use super::kinds::Kind;
use super::numbers::{blocks_of, row_of};
use tables::{BLOCKS, Block, Book, INDEX, LEN, OWNER, ROWS, Row};

// ---- how many

// 1 where block i is used, else 0.
#[tactic(auto, unfolding(quotas::specs::Sum::when))]
fn used(b: &Book, i: Block) -> usize
    ensures { (result ≡ when (not (eqb (owner_of (view b.now) i) 0)) 1) × (result ≤ 1) }
{
    usize::from(OWNER.get(b, i) != 0)
}

// The blocks that row r needs: none, if it is no segment.
#[tactic(auto, using(crate::specs::Laws::Kinds::kind_eq_is), unfolding(quotas::specs::Sum::when))]
fn needed(b: &Book, r: Row) -> usize
    ensures { (result ≡ when (eqb (code_of (view b.now) r) segment_code) (blocks_of (len_of (view b.now) r))) × (result < 1025) }
{
    if kind_at(b, r) == Some(Kind::Segment) {
        blocks_of(LEN.get(b, r))
    } else {
        0
    }
}

// ---- numbers of blocks

// Where each segment's blocks begin, and how many blocks all need. In a book that is not sound that may be more than two bytes hold; it is refused
// for how many it needs, before an offset is asked for.
fn place(b: &Book, offsets: &mut [u16; ROWS]) -> usize
    requires { offsets.old ≡ replicate row_count 0 }
    ensures { (result ≡ needed_blocks (view b.now)) × Offsets (view b.now) row_count offsets.new }
{
    let mut sum = 0;
    for r in 0..ROWS {
        offsets[r] = (sum % 65536) as u16;
        sum += needed(b, r as Row);
    }
    sum
}

#[tactic(auto, using(crate::specs::Laws::Kinds::kind_eq_is), unfolding(crate::specs::Test::owned_b))]
fn owned(b: &Book, i: Block) -> bool
    requires { (owner_of (view b.now) i ≡ 0 → ⊥) }
    ensures { result ≡ owned_b (view b.now) i }
{
    let Ok(owner) = Row::try_from(OWNER.get(b, i) - 1) else {
        return false;
    };
    kind_at(b, owner) == Some(Kind::Segment)
        && usize::from(INDEX.get(b, i)) < blocks_of(LEN.get(b, owner))
}

fn number(b: &Book, offsets: &[u16; ROWS], i: Block) -> usize
    requires { (owner_of (view b.now) i ≡ 0 → ⊥) × (owned_b (view b.now) i ≡ true) × (needed_blocks (view b.now) ≤ block_count)
        × Offsets (view b.now) row_count offsets.now }
    ensures { (result ≡ number_of (view b.now) i) × (result < block_count) }
{
    let owner = row_of(OWNER.get(b, i));
    usize::from(offsets[usize::from(owner)]) + usize::from(INDEX.get(b, i))
}

// Whether block i is as it should be, where those below it are; if so, its number is seen.
#[tactic(auto, unfolding(crate::specs::Test::block_b))]
fn block_ok(b: &Book, offsets: &[u16; ROWS], seen: &mut [bool; BLOCKS], i: Block) -> bool
    requires { (needed_blocks (view b.now) ≤ block_count) × Offsets (view b.now) row_count offsets.now ×
        (every i (block_b (view b.now)) ≡ true) × Seen (view b.now) i seen.old }
    ensures { (result ≡ block_b (view b.now) i) × (result ≡ true → Seen (view b.now) (i + 1) seen.new) }
{
    if OWNER.get(b, i) == 0 {
        return true;
    }
    if !owned(b, i) {
        return false;
    }
    let n = number(b, offsets, i);
    if seen[n] {
        return false;
    }
    seen[n] = true;
    true
}

// Whether each block is as it should be, and as many are used as are asked for.
fn each_ok(b: &Book, offsets: &[u16; ROWS], seen: &mut [bool; BLOCKS], asked: usize) -> bool
    requires { (asked ≡ needed_blocks (view b.now)) × (asked ≤ block_count) × Offsets (view b.now) row_count offsets.now × (seen.old ≡ replicate block_count false) }
    ensures { result ≡ blocks_b (view b.now) }
{
    let mut sum = 0;
    for i in 0..BLOCKS {
        if !block_ok(b, offsets, seen, i as Block) {
            return false;
        }
        sum += used(b, i as Block);
    }
    sum == asked
}

#[tactic(auto, using(crate::proofs::Laws::Seen::blocks_over))]
pub fn blocks_ok(b: &Book) -> bool
    ensures { result ≡ blocks_b (view b.now) }
{
    let mut offsets = [0u16; ROWS];
    let asked = place(b, &mut offsets);
    asked <= BLOCKS && each_ok(b, &offsets, &mut [false; BLOCKS], asked)
}
