// Call 3: the caller takes another clearance.
ghost use Rattle.std.specs.Prelude.{◌≡◌, [], ◌∷◌};
ghost use Rattle.labels.specs.Core.{meant};
ghost use Rattle.rules.specs.Kernel as kernel;
ghost use Rattle.calls.specs.Conditions.{tested};
ghost use Rattle.calls.specs.Outcome.{Done};
ghost use Rattle.calls.specs.SetClearance.{ClearanceJudged};

use super::arguments::lent_label;
use super::begin::begin;
use super::conditions::{ask, ask_two};
use super::leave::leave;
use super::relabel::take_labels;
use super::{Answer, Refusal};
use book::find::next_of;
use book::in_place::{clearance_of, label_of};
use labels::in_place::value;
use labels::{Label, LabelRef, Rule};
use tables::{Row, array_in_mut};

// RULES 8.3: "7 unless T flows to C and C flows to join(T's clearance, high(T))."
#[tactic(auto, unfolding(crate::specs::Conditions::tested, rules::specs::Kernel::all_hold, rules::specs::Kernel::flow, rules::specs::Kernel::flow_join_high))]
fn allowed(mine: LabelRef, taken: LabelRef, cleared: LabelRef) -> Result<(), Refusal>
    ensures { result ≡ tested (kernel.flow (meant mine.entry) (meant taken.entry)
        ∷ kernel.flow_join_high (meant taken.entry) (meant cleared.entry) (meant mine.entry) ∷ []) }
{
    ask_two(Rule::Flows, mine, taken)?;
    ask(Rule::FlowsJoinHigh, taken, cleared, mine)
}

#[tactic(auto, using(crate::specs::Laws::SetClearance::ways_out))]
fn judge(b: &[u8], area: &[u8], caller: u64, clearance: &[u8]) -> Result<(Row, Label), Refusal>
    ensures { ClearanceJudged b.now area.now caller clearance.now result }
{
    let (book, t) = begin(b, area, caller)?;
    let taken = lent_label(clearance, next_of(book), false).ok_or(Refusal::BadArgument)?;
    let mine = label_of(book, t);
    let cleared = clearance_of(book, t);
    allowed(mine, taken, cleared)?;
    Ok((t, value(taken)))
}

#[tactic(auto, using(crate::specs::Laws::Leave::leavable, crate::specs::Laws::Prelude::book_long))]
pub fn set_clearance(b: &mut [u8], area: &mut [u8], caller: u64, clearance: &[u8]) -> Answer
    ensures { Done b.old area.old caller (kernel.set_clearance clearance.now) result b.new area.new }
{
    let (t, taken) = match judge(b, area, caller, clearance) {
        Ok(p) => p,
        Err(r) => return leave(b, r),
    };
    let book = array_in_mut(b);
    let mine = book::find::label_of(book, t);
    take_labels(book, t, mine, taken);
    Ok(0)
}
