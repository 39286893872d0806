// What calls 12 and 13 share: the part of a block that is read or written.
ghost use Rattle.std.specs.Prelude.{◌&&◌, ◌≡◌, ◌+◌, ◌*◌, ◌≤◌, false, leb, MatchResult};
ghost use Rattle.rules.specs.Kernel.{block_size, max_block};
ghost use Rattle.tables.specs.Layout.{view};
ghost use Rattle.book.specs.Book.{block_at};
ghost use Rattle.calls.specs.declared.Refusal.TheVariants.{BadArgument};
ghost use Rattle.labels.specs.Core.{meant};
ghost use Rattle.calls.specs.Access.{asked};
ghost use Rattle.calls.specs.Conditions.{tested};
ghost use Rattle.calls.specs.Part.{part_at};

use super::Refusal;
use super::conditions::{reading, writing};
use book::blocks::block_of;
use book::find::{kind_at, len_of};
use book::in_place::label_of;
use book::kinds::Kind;
use labels::LabelRef;
use tables::{Book, Row};

// RULES 8.12: "4 if k is above 253, .."
const MAX_BLOCK: u64 = 253;

// The bytes of a block.
const BLOCK_SIZE: u64 = book::limits::BLOCK_SIZE as u64;

// `count` bytes of a block, from byte `from` on.
#[derive(Clone, Copy)]
pub struct Part {
    block: u64,
    from: u64,
    count: u64,
    ghost in_segment: { block ≤ max_block },
    ghost in_block: { from + count ≤ block_size },
}

impl Part {
    // RULES 8.12: ".. or if from + count, reckoned without overflow, is above 64." The sum could wrap, so it is not taken.
    pub fn of(k: u64, from: u64, count: u64) -> Result<Part, Refusal>
        ensures { MatchResult result
            (λ p. (p.block ≡ k) × ((p.from ≡ from) × (p.count ≡ count)))
            (λ r. (r ≡ BadArgument) × ((leb k max_block && leb (from + count) block_size) ≡ false)) }
    {
        if MAX_BLOCK < k || BLOCK_SIZE < from || BLOCK_SIZE - from < count {
            return Err(Refusal::BadArgument);
        }
        Ok(Part {
            block: k,
            from,
            count,
        })
    }
}

// Where the part of the segment at row r begins. An empty one may stand behind the last block.
#[tactic(auto, unfolding(book::specs::Book::block_at))]
fn place_of(b: &Book, r: Row, part: Part) -> usize
    ensures { result ≡ block_size * block_at (view b.now) r part.block + part.from }
{
    let block = block_of(b, r, part.block as usize).unwrap_or(0);
    BLOCK_SIZE as usize * usize::from(block) + part.from as usize
}

// RULES 8.12: "7 unless T may read S." 8.13: "7 unless T may write S."
#[tactic(auto, unfolding(crate::specs::Access::asked))]
fn allowed(mine: LabelRef, theirs: LabelRef, writes: bool) -> Result<(), Refusal>
    ensures { result ≡ tested (asked writes (meant mine.entry) (meant theirs.entry)) }
{
    if writes {
        return writing(mine, theirs);
    }
    reading(mine, theirs)
}

// Where the thread at row t may read, or write, the part of the object at row r, by the tests from 6 on: with the place in the data area.
#[tactic(auto, using(book::specs::Laws::Kinds::kind_eq_is))]
pub fn find_part(b: &Book, t: Row, r: Row, part: Part, writes: bool) -> Result<usize, Refusal>
    ensures { result ≡ part_at (view b.now) t r part.block part.from part.count writes }
{
    if kind_at(b, r) != Some(Kind::Segment) {
        return Err(Refusal::WrongKind);
    }
    allowed(label_of(b, t), label_of(b, r), writes)?;
    if len_of(b, r) < BLOCK_SIZE * part.block + part.from + part.count {
        return Err(Refusal::BeyondLength);
    }
    Ok(place_of(b, r, part))
}
