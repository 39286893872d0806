// Call 5: a segment of length 0 created in a container.
ghost use Rattle.std.specs.Prelude.{◌≡◌, ◌<◌};
ghost use Rattle.rules.specs.Kernel.{create_segment};
ghost use Rattle.calls.specs.Outcome.{Done};
ghost use Rattle.calls.specs.CreateSegment.{segment_row, SegmentJudged};

use super::arguments::good_text;
use super::begin::begin;
use super::creating::{MAX_QUOTA, admit, make_in, new_label, or_default, plain_allowed};
use super::leave::leave;
use super::lookup::open_container;
use super::{Answer, Refusal};
use book::find::next_of;
use book::kinds::Kind;
use book::make::NewRow;
use labels::Label;
use labels::in_place::value;
use tables::{Row, TEXT_SIZE, array_in_mut};

// RULES 3.7: ".. 0 stands for a default: 8 for a container, 5 for a segment."
const DEFAULT_QUOTA: u64 = 5;

#[tactic(auto, using(crate::specs::Laws::CreateSegment::ways_out))]
fn judge(
    b: &[u8],
    area: &[u8],
    caller: u64,
    d: u64,
    label: &[u8],
    description: &[u8],
    quota: u64,
) -> Result<(Row, Label), Refusal>
    ensures { SegmentJudged b.now area.now caller d label.now description.now quota result }
{
    let (book, t) = begin(b, area, caller)?;
    let rest = good_text(description) & (quota <= MAX_QUOTA);
    let new = new_label(next_of(book), label, rest).ok_or(Refusal::BadArgument)?;
    let container = open_container(book, t, d)?;
    let allowed = plain_allowed(book, t, new);
    let units = or_default(quota, DEFAULT_QUOTA);
    let c = admit(book, t, container, Kind::Segment, units, allowed)?;
    Ok((c, value(new)))
}

fn new_row(label: Label, quota: u64) -> NewRow
    requires { quota < 65536 }
    ensures { result ≡ segment_row label quota }
{
    NewRow {
        kind: u8::from(Kind::Segment),
        mask: 0,
        quota: quota as u16,
        entry: 0,
        label,
        clearance: Label::of_default(0),
    }
}

#[tactic(auto, using(crate::specs::Laws::Leave::call_steps, crate::specs::Laws::CreateSegment::arguments_fit))]
pub fn create_segment(
    b: &mut [u8],
    area: &mut [u8],
    caller: u64,
    d: u64,
    label: &[u8],
    description: &[u8],
    quota: u64,
) -> Answer
    ensures { Done b.old area.old caller (create_segment d label.now description.now quota) result b.new area.new }
{
    let (c, new) = match judge(b, area, caller, d, label, description, quota) {
        Ok(p) => p,
        Err(r) => return leave(b, r),
    };
    let row = new_row(new, or_default(quota, DEFAULT_QUOTA));
    let closure = [0u8; TEXT_SIZE];
    Ok(make_in(array_in_mut(b), c, row, description, &closure))
}
