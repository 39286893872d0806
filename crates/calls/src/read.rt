// Call 12: part of a segment's block read. What is handed back is that part of the data area itself.
ghost use Rattle.calls.specs.Read.{LocatedAs, Shown, ReadJudged};

use super::Refusal;
use super::begin::begin;
use super::leave::leave;
use super::lookup::open_entry;
use super::part::{Part, find_part};
use super::spread::spread_answer;
use book::alter::move_on;
use tables::array_in_mut;

#[tactic(auto, using(crate::specs::Laws::Read::ways_out))]
fn judge(
    b: &[u8],
    area: &[u8],
    caller: u64,
    d: u64,
    s: u64,
    k: u64,
    from: u64,
    count: u64,
) -> Result<usize, Refusal>
    ensures { ReadJudged b.now area.now caller d s k from count result }
{
    let (book, t) = begin(b, area, caller)?;
    let part = Part::of(k, from, count)?;
    let place = open_entry(book, t, d, s)?;
    find_part(book, t, place.object, part, false)
}

// The call as numbers: the place and the count of the part. The next number moves on.
#[tactic(auto, using(crate::specs::Laws::Leave::leavable, crate::specs::Laws::Prelude::book_long, crate::specs::Laws::Read::located_at))]
pub fn locate(
    b: &mut [u8],
    area: &[u8],
    caller: u64,
    d: u64,
    s: u64,
    k: u64,
    from: u64,
    count: u64,
) -> Result<(usize, usize), Refusal>
    ensures { LocatedAs b.old area.now caller d s k from count b.new result }
{
    let place = match judge(b, area, caller, d, s, k, from, count) {
        Ok(place) => place,
        Err(r) => return leave(b, r),
    };
    move_on(array_in_mut(b));
    Ok((place, count as usize))
}

// The part is answered, answer and value are put out: so page 01 has the form of this call (docs/DECISIONS.md).
pub fn read<'a>(
    b: &mut [u8],
    area: &'a [u8],
    caller: u64,
    d: u64,
    s: u64,
    k: u64,
    from: u64,
    count: u64,
    answer: &mut u64,
    value: &mut u64,
) -> &'a [u8]
    ensures { Shown b.old area.entry caller d s k from count answer.new value.new result b.new }
{
    match locate(b, area, caller, d, s, k, from, count) {
        Ok((place, n)) => {
            *answer = 0;
            *value = 0;
            &area[place..place + n]
        }
        Err(r) => {
            *answer = spread_answer(Err(r), value);
            &area[..0]
        }
    }
}
