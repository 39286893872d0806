// Call 1: a new category, which the caller owns.
ghost use Rattle.std.specs.Prelude.{◌≡◌, cond, ◌<◌};
ghost use Rattle.labels.specs.Core.{category_limit};
ghost use Rattle.rules.specs.Kernel.{cleared_at, create_category};
ghost use Rattle.calls.specs.CreateCategory.{clears_b, CategoryJudged};
ghost use Rattle.calls.specs.Outcome.{Done};

use super::begin::begin;
use super::leave::leave;
use super::relabel::take_labels;
use super::{Answer, Refusal};
use book::find::{clearance_of, label_of, next_of};
use labels::Label;
use labels::pair::with_pair;
use tables::{Row, array_in_mut};

// The clearance with level 3 at the category n: no pair if its default is that.
#[tactic(auto, unfolding(rules::specs::Kernel::cleared_at))]
fn cleared(c: Label, n: u64) -> Option<Label>
    requires { n < category_limit }
    ensures { result ≡ cond (clears_b c) (Some (cleared_at n c)) None }
{
    if c.default == Label::LEVEL3 {
        return Some(c);
    }
    with_pair(c, n, Label::LEVEL3)
}

// The number that the category gets, with the label and the clearance that the caller takes.
#[tactic(auto, using(crate::specs::Laws::CreateCategory::ways_out))]
fn judge(b: &[u8], area: &[u8], caller: u64) -> Result<(Row, Label, Label), Refusal>
    ensures { CategoryJudged b.now area.now caller result }
{
    let (book, t) = begin(b, area, caller)?;
    let n = next_of(book);
    let owned = with_pair(label_of(book, t), n, Label::STAR).ok_or(Refusal::NinthPair)?;
    let clear = cleared(clearance_of(book, t), n).ok_or(Refusal::NinthPair)?;
    Ok((t, owned, clear))
}

#[tactic(auto, using(crate::specs::Laws::Leave::call_steps))]
pub fn create_category(b: &mut [u8], area: &mut [u8], caller: u64) -> Answer
    ensures { Done b.old area.old caller create_category result b.new area.new }
{
    let (t, owned, clear) = match judge(b, area, caller) {
        Ok(taken) => taken,
        Err(r) => return leave(b, r),
    };
    let book = array_in_mut(b);
    let n = next_of(book);
    take_labels(book, t, owned, clear);
    Ok(n)
}
