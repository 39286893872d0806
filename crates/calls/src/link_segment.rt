// Call 9: a segment linked in one container more.
ghost use Rattle.std.specs.Prelude.{◌≡◌, ◌<◌};
ghost use Rattle.tables.specs.Layout.{view};
ghost use Rattle.book.specs.Sound.{Sound, Live};
ghost use Rattle.rules.specs.Kernel as kernel;
ghost use Rattle.calls.specs.Outcome.{Done};
ghost use Rattle.calls.specs.LinkSegment.{LinkJudged, linkable};

use super::begin::begin;
use super::conditions::{ask_two, writing};
use super::leave::leave;
use super::lookup::{open_container, open_entry};
use super::masks::forbids;
use super::{Answer, Refusal};
use book::find::{fixed_of, kind_at, link_of, quota_of};
use book::in_place::{clearance_of, label_of};
use book::kinds::Kind;
use book::make::add_link;
use book::units::spare_of;
use labels::Rule;
use tables::{Book, Row, array_in_mut};

// RULES 8.9: "7 unless T may write D and O flows to T's clearance. 8 if D's mask forbids segments. 9 unless O's quota is fixed. 10 if O is linked in
// D already. 13 if O's quota is above D's spare." T is at row t, D at row c and O at row o. Granted with both rows.
#[tactic(auto, unfolding(rules::specs::Kernel::flow))]
fn admit(b: &Book, t: Row, c: Row, o: Row) -> Result<(Row, Row), Refusal>
    requires { Sound (view b.now) × Live (view b.now) c }
    ensures { result ≡ linkable (view b.now) t c o }
{
    writing(label_of(b, t), label_of(b, c))?;
    ask_two(Rule::Flows, label_of(b, o), clearance_of(b, t))?;
    if forbids(b, c, Kind::Segment) {
        return Err(Refusal::MaskForbids);
    }
    if !fixed_of(b, o) {
        return Err(Refusal::QuotaFixed);
    }
    if link_of(b, c, usize::from(o)).is_some() {
        return Err(Refusal::AlreadyLinked);
    }
    if spare_of(b, c) < quota_of(b, o) {
        return Err(Refusal::NoSpare);
    }
    Ok((c, o))
}

#[tactic(auto, using(crate::specs::Laws::LinkSegment::ways_out, book::specs::Laws::Kinds::kind_same, book::specs::Laws::Kinds::kind_other))]
fn judge(b: &[u8], area: &[u8], caller: u64, d1: u64, o: u64, d: u64) -> Result<(Row, Row), Refusal>
    ensures { LinkJudged b.now area.now caller d1 o d result }
{
    let (book, t) = begin(b, area, caller)?;
    let place = open_entry(book, t, d1, o)?;
    let into = open_container(book, t, d)?;
    if kind_at(book, place.object) != Some(Kind::Segment) {
        return Err(Refusal::WrongKind);
    }
    admit(book, t, into, place.object)
}

#[tactic(auto, using(crate::specs::Laws::Leave::leavable, crate::specs::Laws::Prelude::book_long, crate::specs::Laws::LinkSegment::can_link))]
pub fn link_segment(b: &mut [u8], area: &mut [u8], caller: u64, d1: u64, o: u64, d: u64) -> Answer
    ensures { Done b.old area.old caller (kernel.link_segment d1 o d) result b.new area.new }
{
    match judge(b, area, caller, d1, o, d) {
        Ok((into, object)) => {
            add_link(array_in_mut(b), into, object);
            Ok(0)
        }
        Err(r) => leave(b, r),
    }
}
