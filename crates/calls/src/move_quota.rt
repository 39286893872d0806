// Call 11: units moved from a container into what it holds, or back.
ghost use Rattle.std.specs.Prelude.{◌≡◌, ◌∷◌, ◌++◌};
ghost use Rattle.labels.specs.Core.{meant};
ghost use Rattle.tables.specs.Layout.{view};
ghost use Rattle.book.specs.Sound.{Live, Sound};
ghost use Rattle.calls.specs.Amount.{more_for, room_at};
ghost use Rattle.calls.specs.MoveQuota.{MoveJudged, is_fixed, movable};
ghost use Rattle.calls.specs.Outcome.{Done};
ghost use Rattle.rules.specs.Kernel as kernel;
ghost use Rattle.calls.specs.Conditions.{tested};

use super::amount::{Amount, moved_by};
use super::begin::begin;
use super::conditions::{ask_two, reading, writing};
use super::leave::leave;
use super::lookup::open_entry;
use super::{Answer, Refusal};
use book::alter::{move_on, set_quota};
use book::find::{fixed_of, kind_at, quota_of};
use book::in_place::{clearance_of, label_of};
use book::kinds::Kind;
use book::units::spare_of;
use labels::{LabelRef, Rule};
use tables::{Book, Row, array_in_mut};

// A segment or a container.
#[tactic(auto, unfolding(book::specs::Kinds::kind_with))]
fn movable(b: &Book, r: Row) -> bool
    ensures { result ≡ movable (view b.now) r }
{
    matches!(kind_at(b, r), Some(Kind::Segment | Kind::Container))
}

// RULES 8.11: ".. and, for n below 0, O flows to high(T)."
#[tactic(auto, using(crate::specs::Laws::Conditions::none_asked))]
fn readable(mine: LabelRef, theirs: LabelRef, units: Amount) -> Result<(), Refusal>
    ensures { result ≡ tested (more_for units (meant mine.entry) (meant theirs.entry)) }
{
    match units {
        Amount::In(_) => Ok(()),
        Amount::Out(_) => reading(mine, theirs),
    }
}

// RULES 8.11: "7 unless T may write D, T flows to O, O flows to T's clearance and, for n below 0, O flows to high(T)."
#[tactic(auto, unfolding(crate::specs::Conditions::tested, rules::specs::Kernel::all_hold, rules::specs::Kernel::flow, rules::specs::Kernel::writing, rules::specs::Kernel::reading))]
fn allowed(
    mine: LabelRef,
    clear: LabelRef,
    holder: LabelRef,
    theirs: LabelRef,
    units: Amount,
) -> Result<(), Refusal>
    ensures { result ≡ tested (kernel.writing (meant mine.entry) (meant holder.entry)
        ++ (kernel.flow (meant mine.entry) (meant theirs.entry) ∷ kernel.flow (meant theirs.entry) (meant clear.entry)
        ∷ more_for units (meant mine.entry) (meant theirs.entry))) }
{
    writing(mine, holder)?;
    ask_two(Rule::Flows, mine, theirs)?;
    ask_two(Rule::Flows, theirs, clear)?;
    readable(mine, theirs, units)
}

// Only a segment's quota can be fixed; in other rows the mark is an unused byte.
#[tactic(auto, using(book::specs::Laws::Kinds::kind_eq_is), unfolding(crate::specs::MoveQuota::is_fixed))]
fn is_fixed(b: &Book, r: Row) -> bool
    ensures { result ≡ is_fixed (view b.now) r }
{
    kind_at(b, r) == Some(Kind::Segment) && fixed_of(b, r)
}

// RULES 8.11: "13 if n is above D's spare, or if n is below 0 and -n is above O's spare."
fn has_room(b: &Book, container: Row, object: Row, units: Amount) -> bool
    requires { Sound (view b.now) × Live (view b.now) container × Live (view b.now) object }
    ensures { result ≡ room_at units (view b.now) container object }
{
    match units {
        Amount::In(m) => m <= spare_of(b, container),
        Amount::Out(m) => m <= spare_of(b, object),
    }
}

#[tactic(auto, using(crate::specs::Laws::MoveQuota::ways_out))]
fn judge(
    b: &[u8],
    area: &[u8],
    caller: u64,
    d: u64,
    o: u64,
    n: i64,
) -> Result<(Row, Amount), Refusal>
    ensures { MoveJudged b.now area.now caller d o n result }
{
    let (book, t) = begin(b, area, caller)?;
    let units = Amount::try_from(n)?;
    let place = open_entry(book, t, d, o)?;
    let object = place.object;
    if !movable(book, object) {
        return Err(Refusal::WrongKind);
    }
    let mine = label_of(book, t);
    let clear = clearance_of(book, t);
    let holder = label_of(book, place.container);
    allowed(mine, clear, holder, label_of(book, object), units)?;
    if is_fixed(book, object) {
        return Err(Refusal::QuotaFixed);
    }
    if !has_room(book, place.container, object, units) {
        return Err(Refusal::NoSpare);
    }
    Ok((object, units))
}

#[tactic(auto, using(crate::specs::Laws::Leave::leavable, crate::specs::Laws::Prelude::book_long, crate::specs::Laws::MoveQuota::moved_number))]
pub fn move_quota(b: &mut [u8], area: &mut [u8], caller: u64, d: u64, o: u64, n: i64) -> Answer
    ensures { Done b.old area.old caller (kernel.move_quota d o n) result b.new area.new }
{
    let (row, units) = match judge(b, area, caller, d, o, n) {
        Ok(moving) => moving,
        Err(r) => return leave(b, r),
    };
    let book = array_in_mut(b);
    let q = moved_by(quota_of(book, row), units);
    set_quota(book, row, q);
    move_on(book);
    Ok(0)
}
