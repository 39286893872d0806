// The label conditions of answer 7, one shape for all: passed, or the refusal.
ghost use Rattle.std.specs.Prelude.{◌≡◌, [], ◌∷◌};
ghost use Rattle.labels.specs.Core.{unread, meant};
ghost use Rattle.rules.specs.Kernel as kernel;
ghost use Rattle.calls.specs.Conditions.{asks, tested};

use super::Refusal;
use labels::compare::{compare, compare_two};
use labels::{LabelRef, Rule};

// One condition on three labels.
#[tactic(auto, unfolding(crate::specs::Conditions::tested, rules::specs::Kernel::all_hold, rules::specs::Kernel::holds))]
pub fn ask(rule: Rule, x: LabelRef, y: LabelRef, z: LabelRef) -> Result<(), Refusal>
    ensures { result ≡ tested (asks rule (meant x.entry) (meant y.entry) (meant z.entry) ∷ []) }
{
    if compare(rule, x, y, z) {
        return Ok(());
    }
    Err(Refusal::LabelForbids)
}

// One on two labels.
#[tactic(auto, unfolding(crate::specs::Conditions::tested, rules::specs::Kernel::all_hold, rules::specs::Kernel::holds))]
pub fn ask_two(rule: Rule, x: LabelRef, y: LabelRef) -> Result<(), Refusal>
    ensures { result ≡ tested (asks rule (meant x.entry) (meant y.entry) unread ∷ []) }
{
    if compare_two(rule, x, y) {
        return Ok(());
    }
    Err(Refusal::LabelForbids)
}

// RULES 2.12: "T may read O if O's label flows to high(T's label)."
#[tactic(auto, unfolding(rules::specs::Kernel::reading))]
pub fn reading(t: LabelRef, o: LabelRef) -> Result<(), Refusal>
    ensures { result ≡ tested (kernel.reading (meant t.entry) (meant o.entry)) }
{
    ask_two(Rule::FlowsHigh, o, t)
}

// RULES 2.13: "T may write O if T's label flows to O's label and T may read O."
#[tactic(auto, unfolding(crate::specs::Conditions::tested, rules::specs::Kernel::all_hold, rules::specs::Kernel::flow, rules::specs::Kernel::writing))]
pub fn writing(t: LabelRef, o: LabelRef) -> Result<(), Refusal>
    ensures { result ≡ tested (kernel.writing (meant t.entry) (meant o.entry)) }
{
    ask_two(Rule::Flows, t, o)?;
    reading(t, o)
}
