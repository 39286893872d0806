// Changes of one row, and of the next number.
ghost use Rattle.std.specs.Prelude.{◌≡◌, ◌<◌, ◌≤◌};
ghost use Rattle.rules.specs.Kernel.{last_number};
ghost use Rattle.tables.specs.Layout.{view};
ghost use Rattle.book.specs.Book.{next_of};
ghost use Rattle.book.specs.Enact.{moved_on, relabelled, fixed_at, requotaed};

use labels::{Label, WORDS};
use tables::{
    Book, CLEAR_DEFAULT, CLEAR_WORDS, FIXED, LABEL_DEFAULT, LABEL_WORDS, NEXT, QUOTA, Row,
};

// The next number moves on by one.
#[tactic(auto, unfolding(crate::specs::Enact::moved_on))]
pub fn move_on(b: &mut Book)
    requires { (next_of (view b.old) ≤ last_number) }
    ensures { view b.new ≡ moved_on (view b.old) }
{
    let next = tables::next(b);
    NEXT.put(b, 0, next + 1);
}

// Gives row r a label and a clearance.
#[tactic(auto, unfolding(crate::specs::Enact::relabelled))]
pub fn relabel(b: &mut Book, r: Row, label: Label, clearance: Label)
    requires { (label.default < 256) × (clearance.default < 256) }
    ensures { view b.new ≡ relabelled r label clearance (view b.old) }
{
    LABEL_DEFAULT.put(b, r, label.default as u8);
    LABEL_WORDS.put_run(b, usize::from(r) * WORDS, &label.words);
    CLEAR_DEFAULT.put(b, r, clearance.default as u8);
    CLEAR_WORDS.put_run(b, usize::from(r) * WORDS, &clearance.words);
}

// Fixes the quota of the segment at row r.
#[tactic(auto, unfolding(crate::specs::Enact::fixed_at))]
pub fn fix(b: &mut Book, r: Row)
    ensures { view b.new ≡ fixed_at r (view b.old) }
{
    FIXED.put(b, r, 1);
}

// Makes q the quota of the object at row r.
#[tactic(auto, unfolding(crate::specs::Enact::requotaed))]
pub fn set_quota(b: &mut Book, r: Row, q: u64)
    requires { q < 65536 }
    ensures { view b.new ≡ requotaed r q (view b.old) }
{
    QUOTA.put(b, r, q as u16);
}
