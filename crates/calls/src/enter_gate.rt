// Call 15: the caller enters a gate.
ghost use Rattle.std.specs.Prelude.{◌≡◌, length};
ghost use Rattle.labels.specs.Core.{meant};
ghost use Rattle.rules.specs.Kernel.{enter_gate};
ghost use Rattle.calls.specs.Arguments.{LentIf};
ghost use Rattle.tables.specs.Layout.{view};
ghost use Rattle.calls.specs.Conditions.{tested};
ghost use Rattle.calls.specs.EnterGate.{good_gate, asks_at, LentAs, EnterJudged};
ghost use Rattle.calls.specs.Outcome.{DoneWith};

use super::arguments::lent_label;
use super::begin::begin;
use super::conditions::{ask, ask_two};
use super::leave::leave;
use super::lookup::open_entry;
use super::relabel::take_labels;
use super::{Answer, Refusal};
use book::find::{closure_into, entry_number_of, kind_at, next_of};
use book::in_place::{clearance_of, label_of};
use book::kinds::Kind;
use labels::in_place::value;
use labels::{Label, LabelRef, Rule};
use tables::{Book, Row, TEXT_SIZE, array_in_mut};

// The labels L_R, C_R and L_V.
#[derive(Clone, Copy)]
struct Lent<'a> {
    taken: LabelRef<'a>,
    limit: LabelRef<'a>,
    shown: LabelRef<'a>,
}

// Those that are lent, if they and the output's length are as they should be.
#[tactic(auto, unfolding(crate::specs::EnterGate::good_gate))]
fn lent_labels<'a>(
    next: u64,
    lr: &'a [u8],
    cr: &'a [u8],
    lv: &'a [u8],
    n: usize,
) -> Option<Lent<'a>>
    ensures { LentIf (good_gate next lr.now cr.now lv.now n) (LentAs lr.now cr.now lv.now) result }
{
    let taken = lent_label(lr, next, true)?;
    let limit = lent_label(cr, next, false)?;
    let shown = lent_label(lv, next, true)?;
    (n == TEXT_SIZE).then_some(Lent {
        taken,
        limit,
        shown,
    })
}

// RULES 8.15: "7 unless T flows to G's clearance, T flows to L_V, floor(T, G) flows to L_R, L_R flows to C_R, and C_R flows to join(T's clearance, G's clearance)."
// Of the thread at row t and the gate at row r.
#[tactic(auto, unfolding(crate::specs::Conditions::tested, rules::specs::Kernel::all_hold, rules::specs::Kernel::flow, rules::specs::Kernel::floor_flow, rules::specs::Kernel::flow_join))]
fn conditions(
    b: &Book,
    t: Row,
    r: Row,
    taken: LabelRef,
    limit: LabelRef,
    shown: LabelRef,
) -> Result<(), Refusal>
    ensures { result ≡ tested (asks_at (view b.now) t r (meant taken.entry) (meant limit.entry) (meant shown.entry)) }
{
    let mine = label_of(b, t);
    let guard = clearance_of(b, r);
    ask_two(Rule::Flows, mine, guard)?;
    ask_two(Rule::Flows, mine, shown)?;
    ask(Rule::FloorFlows, mine, label_of(b, r), taken)?;
    ask_two(Rule::Flows, taken, limit)?;
    ask(Rule::FlowsJoin, limit, clearance_of(b, t), guard)
}

#[tactic(auto, using(crate::specs::Laws::EnterGate::ways_out))]
fn judge(
    b: &[u8],
    area: &[u8],
    caller: u64,
    d: u64,
    g: u64,
    lr: &[u8],
    cr: &[u8],
    lv: &[u8],
    n: usize,
) -> Result<(Row, Row, Label, Label), Refusal>
    ensures { EnterJudged b.now area.now caller d g lr.now cr.now lv.now n result }
{
    let (book, t) = begin(b, area, caller)?;
    let lent = lent_labels(next_of(book), lr, cr, lv, n).ok_or(Refusal::BadArgument)?;
    let place = open_entry(book, t, d, g)?;
    let object = place.object;
    if kind_at(book, object) != Some(Kind::Gate) {
        return Err(Refusal::WrongKind);
    }
    conditions(book, t, object, lent.taken, lent.limit, lent.shown)?;
    Ok((t, object, value(lent.taken), value(lent.limit)))
}

#[tactic(auto, using(crate::specs::Laws::Leave::leavable, crate::specs::Laws::Prelude::book_long))]
pub fn enter_gate(
    b: &mut [u8],
    area: &mut [u8],
    caller: u64,
    d: u64,
    g: u64,
    lr: &[u8],
    cr: &[u8],
    lv: &[u8],
    out: &mut [u8],
) -> Answer
    ensures { DoneWith b.old area.old caller
        (enter_gate d g lr.now cr.now lv.now (length out.old))
        out.old result b.new area.new out.new }
{
    let n = out.len();
    match judge(b, area, caller, d, g, lr, cr, lv, n) {
        Ok((t, r, taken, limit)) => {
            let book = array_in_mut(b);
            let value = entry_number_of(book, r);
            closure_into(book, r, out);
            take_labels(book, t, taken, limit);
            Ok(value)
        }
        Err(r) => leave(b, r),
    }
}
