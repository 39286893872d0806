// Call 13: bytes written into part of a segment's block.
ghost use Rattle.rules.specs.Kernel as kernel;
ghost use Rattle.calls.specs.Outcome.{Done};
ghost use Rattle.calls.specs.Write.{WriteJudged};

use super::begin::begin;
use super::leave::leave;
use super::lookup::open_entry;
use super::part::{Part, find_part};
use super::{Answer, Refusal};
use book::alter::move_on;
use book::area::write_area;
use tables::array_in_mut;

#[tactic(auto, using(crate::specs::Laws::Write::ways_out))]
fn judge(
    b: &[u8],
    area: &[u8],
    caller: u64,
    d: u64,
    s: u64,
    k: u64,
    from: u64,
    count: u64,
    bytes: &[u8],
) -> Result<usize, Refusal>
    ensures { WriteJudged b.now area.now caller d s k from count bytes.now result }
{
    let (book, t) = begin(b, area, caller)?;
    let part = Part::of(k, from, count)?;
    if bytes.len() as u64 != count {
        return Err(Refusal::BadArgument);
    }
    let place = open_entry(book, t, d, s)?;
    find_part(book, t, place.object, part, true)
}

#[tactic(auto, using(crate::specs::Laws::Leave::leavable, crate::specs::Laws::Prelude::book_long, crate::specs::Laws::Write::can_write))]
pub fn write(
    b: &mut [u8],
    area: &mut [u8],
    caller: u64,
    d: u64,
    s: u64,
    k: u64,
    from: u64,
    count: u64,
    bytes: &[u8],
) -> Answer
    ensures { Done b.old area.old caller (kernel.write d s k from count bytes.now) result b.new area.new }
{
    let place = match judge(b, area, caller, d, s, k, from, count, bytes) {
        Ok(place) => place,
        Err(r) => return leave(b, r),
    };
    write_area(area, place, bytes);
    move_on(array_in_mut(b));
    Ok(0)
}
