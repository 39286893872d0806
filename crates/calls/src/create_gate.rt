// Call 6: a gate created in a container.
ghost use Rattle.std.specs.Prelude.{◌≡◌};
ghost use Rattle.rules.specs.Kernel.{create_gate};
ghost use Rattle.calls.specs.Outcome.{Done};
ghost use Rattle.calls.specs.CreateGate.{gate_row_of, GateJudged};

use super::arguments::good_text;
use super::begin::begin;
use super::creating::{ONE_UNIT, admit, cleared_allowed, make_in, new_labels};
use super::leave::leave;
use super::lookup::open_container;
use super::{Answer, Refusal};
use book::find::next_of;
use book::kinds::Kind;
use book::make::NewRow;
use labels::Label;
use labels::in_place::value;
use tables::{Row, array_in_mut};

// The entry number may be any, so no test looks at it.
#[tactic(auto, using(crate::specs::Laws::CreateGate::ways_out))]
fn judge(
    b: &[u8],
    area: &[u8],
    caller: u64,
    d: u64,
    label: &[u8],
    clearance: &[u8],
    number: u64,
    closure: &[u8],
    description: &[u8],
) -> Result<(Row, Label, Label), Refusal>
    ensures { GateJudged b.now area.now caller d label.now clearance.now number closure.now description.now result }
{
    let (book, t) = begin(b, area, caller)?;
    let rest = good_text(closure) & good_text(description);
    let lent = new_labels(next_of(book), label, clearance, rest);
    let new = lent.ok_or(Refusal::BadArgument)?;
    let container = open_container(book, t, d)?;
    let allowed = cleared_allowed(book, t, new.label, new.clearance);
    let c = admit(book, t, container, Kind::Gate, ONE_UNIT, allowed)?;
    Ok((c, value(new.label), value(new.clearance)))
}

fn new_row(label: Label, clearance: Label, number: u64) -> NewRow
    ensures { result ≡ gate_row_of label clearance number }
{
    NewRow {
        kind: u8::from(Kind::Gate),
        mask: 0,
        quota: 1,
        entry: number,
        label,
        clearance,
    }
}

#[tactic(auto, using(crate::specs::Laws::Leave::call_steps))]
pub fn create_gate(
    b: &mut [u8],
    area: &mut [u8],
    caller: u64,
    d: u64,
    label: &[u8],
    clearance: &[u8],
    number: u64,
    closure: &[u8],
    description: &[u8],
) -> Answer
    ensures { Done b.old area.old caller
        (create_gate d label.now clearance.now number closure.now description.now) result b.new area.new }
{
    let (c, new, most) = match judge(
        b,
        area,
        caller,
        d,
        label,
        clearance,
        number,
        closure,
        description,
    ) {
        Ok(p) => p,
        Err(r) => return leave(b, r),
    };
    let row = new_row(new, most, number);
    Ok(make_in(array_in_mut(b), c, row, description, closure))
}
