// Call 7: a thread created in a container.
ghost use Rattle.std.specs.Prelude.{◌≡◌};
ghost use Rattle.rules.specs.Kernel.{create_thread};
ghost use Rattle.calls.specs.Outcome.{Done};
ghost use Rattle.calls.specs.CreateThread.{thread_row_of, ThreadJudged};

use super::arguments::good_text;
use super::begin::begin;
use super::creating::{ONE_UNIT, admit, cleared_allowed, make_in, new_labels};
use super::leave::leave;
use super::lookup::open_container;
use super::{Answer, Refusal};
use book::find::next_of;
use book::kinds::Kind;
use book::make::NewRow;
use labels::Label;
use labels::in_place::value;
use tables::{Row, TEXT_SIZE, array_in_mut};

#[tactic(auto, using(crate::specs::Laws::CreateThread::ways_out))]
fn judge(
    b: &[u8],
    area: &[u8],
    caller: u64,
    d: u64,
    label: &[u8],
    clearance: &[u8],
    description: &[u8],
) -> Result<(Row, Label, Label), Refusal>
    ensures { ThreadJudged b.now area.now caller d label.now clearance.now description.now result }
{
    let (book, t) = begin(b, area, caller)?;
    let rest = good_text(description);
    let new = new_labels(next_of(book), label, clearance, rest).ok_or(Refusal::BadArgument)?;
    let container = open_container(book, t, d)?;
    let allowed = cleared_allowed(book, t, new.label, new.clearance);
    let c = admit(book, t, container, Kind::Thread, ONE_UNIT, allowed)?;
    Ok((c, value(new.label), value(new.clearance)))
}

fn new_row(label: Label, clearance: Label) -> NewRow
    ensures { result ≡ thread_row_of label clearance }
{
    NewRow {
        kind: u8::from(Kind::Thread),
        mask: 0,
        quota: 1,
        entry: 0,
        label,
        clearance,
    }
}

#[tactic(auto, using(crate::specs::Laws::Leave::call_steps))]
pub fn create_thread(
    b: &mut [u8],
    area: &mut [u8],
    caller: u64,
    d: u64,
    label: &[u8],
    clearance: &[u8],
    description: &[u8],
) -> Answer
    ensures { Done b.old area.old caller (create_thread d label.now clearance.now description.now) result b.new area.new }
{
    let (c, new, most) = match judge(b, area, caller, d, label, clearance, description) {
        Ok(p) => p,
        Err(r) => return leave(b, r),
    };
    let row = new_row(new, most);
    let closure = [0u8; TEXT_SIZE];
    Ok(make_in(array_in_mut(b), c, row, description, &closure))
}
