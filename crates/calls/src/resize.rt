// Call 14: a segment made longer or shorter.
ghost use Rattle.rules.specs.Kernel as kernel;
ghost use Rattle.calls.specs.Outcome.{Done};
ghost use Rattle.calls.specs.Resize.{ResizeJudged};

use super::begin::begin;
use super::conditions::writing;
use super::leave::leave;
use super::lookup::open_entry;
use super::{Answer, Refusal};
use book::alter::move_on;
use book::find::{kind_at, quota_of};
use book::in_place::label_of;
use book::kinds::Kind;
use book::units::units;
use tables::{Row, array_in_mut};

// RULES 8.14: "4 if the length is above 16,256."
const MAX_LENGTH: u64 = book::limits::MAX_LENGTH as u64;

#[tactic(auto, using(crate::specs::Laws::Resize::ways_out, book::specs::Laws::Kinds::kind_same, book::specs::Laws::Kinds::kind_other))]
fn judge(b: &[u8], area: &[u8], caller: u64, d: u64, s: u64, length: u64) -> Result<Row, Refusal>
    ensures { ResizeJudged b.now area.now caller d s length result }
{
    let (book, t) = begin(b, area, caller)?;
    if MAX_LENGTH < length {
        return Err(Refusal::BadArgument);
    }
    let place = open_entry(book, t, d, s)?;
    let object = place.object;
    if kind_at(book, object) != Some(Kind::Segment) {
        return Err(Refusal::WrongKind);
    }
    writing(label_of(book, t), label_of(book, object))?;
    if quota_of(book, object) < units(length) {
        return Err(Refusal::NoSpare);
    }
    Ok(object)
}

#[tactic(auto, using(crate::specs::Laws::Leave::leavable, crate::specs::Laws::Prelude::book_long, crate::specs::Laws::Prelude::area_long, crate::specs::Laws::Resize::can_resize))]
pub fn resize(b: &mut [u8], area: &mut [u8], caller: u64, d: u64, s: u64, length: u64) -> Answer
    ensures { Done b.old area.old caller (kernel.resize d s length) result b.new area.new }
{
    let row = match judge(b, area, caller, d, s, length) {
        Ok(row) => row,
        Err(r) => return leave(b, r),
    };
    let book = array_in_mut(b);
    book::resize::resize(book, array_in_mut(area), row, length as u16);
    move_on(book);
    Ok(0)
}
