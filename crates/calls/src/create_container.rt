// Call 4: a container created in a container.
ghost use Rattle.std.specs.Prelude.{◌≡◌, ◌<◌, ◌≤◌};
ghost use Rattle.std.specs.Int.Bits.{bit_or};
ghost use Rattle.rules.specs.Kernel.{max_mask, create_container};
ghost use Rattle.calls.specs.Outcome.{Done};
ghost use Rattle.calls.specs.CreateContainer.{container_row_of, ContainerJudged};

use super::arguments::good_text;
use super::begin::begin;
use super::creating::{MAX_QUOTA, admit, make_in, new_label, or_default, plain_allowed};
use super::leave::leave;
use super::lookup::open_container;
use super::{Answer, Refusal};
use book::find::{mask_of, next_of};
use book::kinds::{Kind, MAX_MASK};
use book::make::NewRow;
use labels::Label;
use labels::in_place::value;
use tables::{Row, TEXT_SIZE, array_in_mut};

// The largest mask, as wide as the one that is lent.
const MASK_MOST: u64 = MAX_MASK as u64;

// RULES 3.7: ".. 0 stands for a default: 8 for a container, 5 for a segment."
const DEFAULT_QUOTA: u64 = 8;

#[tactic(auto, using(crate::specs::Laws::CreateContainer::ways_out))]
fn judge(
    b: &[u8],
    area: &[u8],
    caller: u64,
    d: u64,
    label: &[u8],
    description: &[u8],
    mask: u64,
    quota: u64,
) -> Result<(Row, Label), Refusal>
    ensures { ContainerJudged b.now area.now caller d label.now description.now mask quota result }
{
    let (book, t) = begin(b, area, caller)?;
    let rest = good_text(description) & ((mask <= MASK_MOST) & (quota <= MAX_QUOTA));
    let lent = new_label(next_of(book), label, rest);
    let new = lent.ok_or(Refusal::BadArgument)?;
    let container = open_container(book, t, d)?;
    let allowed = plain_allowed(book, t, new);
    let units = or_default(quota, DEFAULT_QUOTA);
    let c = admit(book, t, container, Kind::Container, units, allowed)?;
    Ok((c, value(new)))
}

// RULES 8.4: "The new mask has the bits given and those of D's mask."
#[tactic(auto, using(crate::specs::Laws::CreateContainer::masks_joined))]
fn joined(mask: u64, outer: u64) -> u64
    requires { (mask ≤ max_mask) × (outer ≤ max_mask) }
    ensures { (result ≡ bit_or mask outer) × (result < 256) }
{
    mask | outer
}

fn new_row(label: Label, mask: u64, quota: u64) -> NewRow
    requires { (mask < 256) × (quota < 65536) }
    ensures { result ≡ container_row_of label mask quota }
{
    NewRow {
        kind: u8::from(Kind::Container),
        mask: mask as u8,
        quota: quota as u16,
        entry: 0,
        label,
        clearance: Label::of_default(0),
    }
}

#[tactic(auto, using(crate::specs::Laws::Leave::call_steps, crate::specs::Laws::CreateContainer::arguments_fit))]
pub fn create_container(
    b: &mut [u8],
    area: &mut [u8],
    caller: u64,
    d: u64,
    label: &[u8],
    description: &[u8],
    mask: u64,
    quota: u64,
) -> Answer
    ensures { Done b.old area.old caller (create_container d label.now description.now mask quota) result b.new area.new }
{
    let (c, new) = match judge(b, area, caller, d, label, description, mask, quota) {
        Ok(p) => p,
        Err(r) => return leave(b, r),
    };
    let book = array_in_mut(b);
    let all = joined(mask, mask_of(book, c));
    let row = new_row(new, all, or_default(quota, DEFAULT_QUOTA));
    let closure = [0u8; TEXT_SIZE];
    Ok(make_in(book, c, row, description, &closure))
}
