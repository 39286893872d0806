// Call 2: the caller takes another label.
ghost use Rattle.std.specs.Prelude.{◌≡◌, [], ◌∷◌};
ghost use Rattle.labels.specs.Core.{meant};
ghost use Rattle.rules.specs.Kernel as kernel;
ghost use Rattle.calls.specs.Conditions.{tested};
ghost use Rattle.calls.specs.Outcome.{Done};
ghost use Rattle.calls.specs.SetLabel.{LabelJudged};

use super::arguments::lent_label;
use super::begin::begin;
use super::conditions::ask_two;
use super::leave::leave;
use super::relabel::take_labels;
use super::{Answer, Refusal};
use book::find::next_of;
use book::in_place::{clearance_of, label_of};
use labels::in_place::value;
use labels::{Label, LabelRef, Rule};
use tables::{Row, array_in_mut};

// RULES 8.2: "7 unless T flows to L and L flows to T's clearance."
#[tactic(auto, unfolding(crate::specs::Conditions::tested, rules::specs::Kernel::all_hold, rules::specs::Kernel::flow))]
fn allowed(mine: LabelRef, taken: LabelRef, cleared: LabelRef) -> Result<(), Refusal>
    ensures { result ≡ tested (kernel.flow (meant mine.entry) (meant taken.entry)
        ∷ kernel.flow (meant taken.entry) (meant cleared.entry) ∷ []) }
{
    ask_two(Rule::Flows, mine, taken)?;
    ask_two(Rule::Flows, taken, cleared)
}

#[tactic(auto, using(crate::specs::Laws::SetLabel::ways_out))]
fn judge(b: &[u8], area: &[u8], caller: u64, label: &[u8]) -> Result<(Row, Label), Refusal>
    ensures { LabelJudged b.now area.now caller label.now result }
{
    let (book, t) = begin(b, area, caller)?;
    let taken = lent_label(label, next_of(book), true).ok_or(Refusal::BadArgument)?;
    let mine = label_of(book, t);
    let cleared = clearance_of(book, t);
    allowed(mine, taken, cleared)?;
    Ok((t, value(taken)))
}

#[tactic(auto, using(crate::specs::Laws::Leave::leavable, crate::specs::Laws::Prelude::book_long))]
pub fn set_label(b: &mut [u8], area: &mut [u8], caller: u64, label: &[u8]) -> Answer
    ensures { Done b.old area.old caller (kernel.set_label label.now) result b.new area.new }
{
    let (t, taken) = match judge(b, area, caller, label) {
        Ok(p) => p,
        Err(r) => return leave(b, r),
    };
    let book = array_in_mut(b);
    let cleared = book::find::clearance_of(book, t);
    take_labels(book, t, taken, cleared);
    Ok(0)
}
