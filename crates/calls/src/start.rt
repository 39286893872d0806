// Start: the root container and its thread in areas that held anything.
ghost use Rattle.calls.specs.Outcome.{number_of};
ghost use Rattle.calls.specs.Started.{Started};

use super::Refusal;
use book::sound::AREA_LEN;
use tables::{array_in_mut, book_in};

// The largest first number: two more are taken at once, and a call must still have one.
pub const LAST_FIRST: u64 = book::limits::LAST_NUMBER - 2;

#[tactic(auto, using(crate::specs::Laws::Started::ways_out))]
pub fn start(b: &mut [u8], area: &mut [u8], first: u64) -> Result<(), Refusal>
    ensures { Started b.old area.old first (number_of result) b.new area.new }
{
    if book_in(b).is_none() || area.len() != AREA_LEN {
        return Err(Refusal::BadArea);
    }
    if first < 1 || LAST_FIRST < first {
        return Err(Refusal::BadArgument);
    }
    book::start::start(array_in_mut(b), array_in_mut(area), first);
    Ok(())
}
