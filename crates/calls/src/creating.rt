// What calls 4 to 7 share: whether a thread may create an object in a container, and the making of it.
ghost use Rattle.std.specs.Prelude.{true, false, ◌&&◌, ◌≡◌, ◌≤◌};
ghost use Rattle.labels.specs.Core as core;
ghost use Rattle.labels.specs.Core.{meant};
ghost use Rattle.rules.specs.Kernel.{or_default, good_label};
ghost use Rattle.tables.specs.Layout.{view};
ghost use Rattle.book.specs.Book.{next_of, label_of, clearance_of};
ghost use Rattle.book.specs.Kinds.{code_of_kind};
ghost use Rattle.book.specs.Make.{object_of, created_in, Creating};
ghost use Rattle.book.specs.Sound.{Sound, Live};
ghost use Rattle.calls.specs.Arguments.{LentIf};
ghost use Rattle.calls.specs.Conditions.{tested};
ghost use Rattle.calls.specs.Creating.{LentPair, plain_conditions, cleared_conditions, admitted};

use super::Refusal;
use super::arguments::lent_label;
use super::conditions::{ask_two, writing};
use super::masks::forbids_code;
use book::find::next_of;
use book::in_place::{clearance_of, label_of};
use book::kinds::Kind;
use book::make::{NewRow, create};
use book::units::spare_of;
use labels::{LabelRef, Rule};
use tables::{Book, Row};

// RULES 3.7: "The quota given to call 4 or 5 is at most 255, .."
pub const MAX_QUOTA: u64 = 255;

// RULES 8.6 and 8.7, of a gate and of a thread: "As 8.4, with quota 1."
pub const ONE_UNIT: u64 = 1;

// RULES 3.7: ".. and 0 stands for a default: .."
#[tactic(auto, unfolding(rules::specs::Kernel::or_default))]
pub fn or_default(quota: u64, default: u64) -> u64
    ensures { result ≡ or_default quota default }
{
    if quota == 0 {
        return default;
    }
    quota
}

// The label and the clearance that are lent for a new object.
#[derive(Clone, Copy)]
pub struct NewLabels<'a> {
    pub label: LabelRef<'a>,
    pub clearance: LabelRef<'a>,
}

// The label of a new object without a clearance, if it and what else is lent, as `rest` says, are as they should be.
pub fn new_label(next: u64, label: &[u8], rest: bool) -> Option<LabelRef>
    ensures { LentIf (good_label next false label.now && rest) (λ l. meant l ≡ core.label_of label.now) result }
{
    let new = lent_label(label, next, false)?;
    rest.then_some(new)
}

// The labels of one with a clearance, in which star may stand in the label.
pub fn new_labels<'a>(
    next: u64,
    label: &'a [u8],
    clearance: &'a [u8],
    rest: bool,
) -> Option<NewLabels<'a>>
    ensures { LentIf (good_label next true label.now && (good_label next false clearance.now && rest)) (LentPair label.now clearance.now) result }
{
    let label = lent_label(label, next, true)?;
    let clearance = lent_label(clearance, next, false)?;
    rest.then_some(NewLabels { label, clearance })
}

// The label conditions of a new object without a clearance, beside that of writing the container: the thread at row t flows to the label, and that to
// the thread's clearance.
#[tactic(auto, unfolding(crate::specs::Conditions::tested, rules::specs::Kernel::all_hold, rules::specs::Kernel::flow))]
pub fn plain_allowed(b: &Book, t: Row, new: LabelRef) -> Result<(), Refusal>
    ensures { result ≡ tested (plain_conditions (label_of (view b.now) t) (clearance_of (view b.now) t) (meant new.entry)) }
{
    ask_two(Rule::Flows, label_of(b, t), new)?;
    ask_two(Rule::Flows, new, clearance_of(b, t))
}

// The same of one with a clearance, which stands between the two.
#[tactic(auto, unfolding(crate::specs::Conditions::tested, rules::specs::Kernel::all_hold, rules::specs::Kernel::flow))]
pub fn cleared_allowed(b: &Book, t: Row, new: LabelRef, most: LabelRef) -> Result<(), Refusal>
    ensures { result ≡ tested (cleared_conditions (label_of (view b.now) t) (clearance_of (view b.now) t)
        (meant new.entry) (meant most.entry)) }
{
    ask_two(Rule::Flows, label_of(b, t), new)?;
    ask_two(Rule::Flows, new, most)?;
    ask_two(Rule::Flows, most, clearance_of(b, t))
}

// Whether the thread at row t may create an object in the container at row c, by the tests from 7 on: `code` is that of the object's kind, and
// `allowed` says what its own label conditions came to. Granted with the container's row.
pub fn admit_code(
    b: &Book,
    t: Row,
    c: Row,
    code: u8,
    quota: u64,
    allowed: Result<(), Refusal>,
) -> Result<Row, Refusal>
    requires { Sound (view b.now) × Live (view b.now) c × (1 ≤ code) × (code ≤ 64) }
    ensures { result ≡ admitted (view b.now) t c code quota allowed }
{
    writing(label_of(b, t), label_of(b, c))?;
    allowed?;
    if forbids_code(b, c, code) {
        return Err(Refusal::MaskForbids);
    }
    if spare_of(b, c) < quota {
        return Err(Refusal::NoSpare);
    }
    Ok(c)
}

// The same of a kind.
#[tactic(auto, using(book::specs::Laws::Kinds::code_some, book::specs::Laws::Kinds::code_most))]
pub fn admit(
    b: &Book,
    t: Row,
    c: Row,
    kind: Kind,
    quota: u64,
    allowed: Result<(), Refusal>,
) -> Result<Row, Refusal>
    requires { Sound (view b.now) × Live (view b.now) c }
    ensures { result ≡ admitted (view b.now) t c (code_of_kind kind) quota allowed }
{
    admit_code(b, t, c, u8::from(kind), quota, allowed)
}

// Makes the object in the container at row c; the number it gets.
pub fn make_in(b: &mut Book, c: Row, row: NewRow, description: &[u8], closure: &[u8]) -> u64
    requires { Creating b.old c row description.now closure.now }
    ensures value { result ≡ next_of (view b.old) }
    ensures b_after { view b.new ≡ created_in c (object_of row description.now closure.now) (view b.old) }
{
    let id = next_of(b);
    create(b, c, row, description, closure);
    id
}
