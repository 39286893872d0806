// Call 8: a link cut with all that hangs on it.
ghost use Rattle.calls.specs.Outcome.{Done};
ghost use Rattle.calls.specs.Unreference.{CutJudged};
ghost use Rattle.rules.specs.Kernel as kernel;

use super::begin::begin;
use super::conditions::writing;
use super::leave::leave;
use super::lookup::open_entry;
use super::{Answer, Refusal};
use book::cut::cut_entry;
use book::in_place::label_of;
use tables::array_in_mut;

#[tactic(auto, using(crate::specs::Laws::Unreference::ways_out))]
fn judge(b: &[u8], area: &[u8], caller: u64, d: u64, o: u64) -> Result<usize, Refusal>
    ensures { CutJudged b.now area.now caller d o result }
{
    let (book, t) = begin(b, area, caller)?;
    let place = open_entry(book, t, d, o)?;
    writing(label_of(book, t), label_of(book, place.container))?;
    Ok(place.link)
}

#[tactic(auto, using(crate::specs::Laws::Leave::leavable, crate::specs::Laws::Prelude::book_long, crate::specs::Laws::Prelude::area_long, crate::specs::Laws::Unreference::can_cut))]
pub fn unreference(b: &mut [u8], area: &mut [u8], caller: u64, d: u64, o: u64) -> Answer
    ensures { Done b.old area.old caller (kernel.unreference d o) result b.new area.new }
{
    match judge(b, area, caller, d, o) {
        Ok(link) => {
            cut_entry(array_in_mut(b), array_in_mut(area), link);
            Ok(0)
        }
        Err(r) => leave(b, r),
    }
}
