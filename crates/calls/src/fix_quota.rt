// Call 10: a segment's quota fixed.
ghost use Rattle.std.specs.Prelude.{◌≡◌, [], ◌∷◌, ◌++◌};
ghost use Rattle.calls.specs.Outcome.{Done};
ghost use Rattle.calls.specs.FixQuota.{FixJudged};
ghost use Rattle.labels.specs.Core.{meant};
ghost use Rattle.rules.specs.Kernel as kernel;
ghost use Rattle.calls.specs.Conditions.{tested};

use super::begin::begin;
use super::conditions::{ask_two, writing};
use super::leave::leave;
use super::lookup::open_entry;
use super::{Answer, Refusal};
use book::alter::{fix, move_on};
use book::find::kind_at;
use book::in_place::label_of;
use book::kinds::Kind;
use labels::{LabelRef, Rule};
use tables::{Row, array_in_mut};

// RULES 8.10: "7 unless T may write D and T flows to O."
#[tactic(auto, unfolding(crate::specs::Conditions::tested, rules::specs::Kernel::all_hold, rules::specs::Kernel::flow, rules::specs::Kernel::writing, rules::specs::Kernel::reading))]
fn allowed(mine: LabelRef, holder: LabelRef, theirs: LabelRef) -> Result<(), Refusal>
    ensures { result ≡ tested (kernel.writing (meant mine.entry) (meant holder.entry)
        ++ (kernel.flow (meant mine.entry) (meant theirs.entry) ∷ [])) }
{
    writing(mine, holder)?;
    ask_two(Rule::Flows, mine, theirs)
}

#[tactic(auto, using(crate::specs::Laws::FixQuota::ways_out, book::specs::Laws::Kinds::kind_same, book::specs::Laws::Kinds::kind_other))]
fn judge(b: &[u8], area: &[u8], caller: u64, d: u64, o: u64) -> Result<Row, Refusal>
    ensures { FixJudged b.now area.now caller d o result }
{
    let (book, t) = begin(b, area, caller)?;
    let place = open_entry(book, t, d, o)?;
    let object = place.object;
    if kind_at(book, object) != Some(Kind::Segment) {
        return Err(Refusal::WrongKind);
    }
    let mine = label_of(book, t);
    let holder = label_of(book, place.container);
    allowed(mine, holder, label_of(book, object))?;
    Ok(object)
}

#[tactic(auto, using(crate::specs::Laws::Leave::leavable, crate::specs::Laws::Prelude::book_long, crate::specs::Laws::FixQuota::fixed_number))]
pub fn fix_quota(b: &mut [u8], area: &mut [u8], caller: u64, d: u64, o: u64) -> Answer
    ensures { Done b.old area.old caller (kernel.fix_quota d o) result b.new area.new }
{
    let row = match judge(b, area, caller, d, o) {
        Ok(row) => row,
        Err(r) => return leave(b, r),
    };
    let book = array_in_mut(b);
    fix(book, row);
    move_on(book);
    Ok(0)
}
