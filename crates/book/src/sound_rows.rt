// Whether each row, by itself, is as in a sound book: ranges, ids and labels. Its kind is its code here: in a book
// that is not sound it may be no kind's.
ghost use Rattle.std.specs.Prelude.{◌≡◌, true, not, ◌+◌, ◌<◌, ◌≤◌, eqb, replicate};
ghost use Rattle.labels.specs.Core.{meant};
ghost use Rattle.tables.specs.Layout.{view, row_count};
ghost use Rattle.book.specs.Book.{id_of, label_of, has_id};
ghost use Rattle.book.specs.Test.{every, range_n, range_b, new_b, id_b, clear_b, label_b, row_b, rows_b};
ghost use Rattle.book.specs.Marks.{mark_count, mark_bytes, mark_place, mark_at, mark_set, Marked};

use super::find::has_id;
use super::in_place::{clearance_of, label_of};
use super::kinds::{FREE, Kind, MAX_MASK, thread_or_gate};
use super::limits::{LAST_NUMBER, MAX_LENGTH, ROOT_QUOTA};
use labels::compare::compare_two;
use labels::form::well_formed;
use labels::{LabelRef, Rule};
use tables::{Book, FIXED, ID, KIND, LEN, MASK, QUOTA, ROWS, Row, next};

// How many marks there are for ids: ids in use that were issued within this many calls of one another have a mark each. It is prime, so that up to this
// many ids at equal distances have one each too, whatever the distance, unless that is a multiple of it.
const MARKS: usize = 2039;

// The bytes that hold them, a bit each: booleans would take 1,784 bytes of stack more.
const MARK_BYTES: usize = MARKS / 8 + 1;

// One past the last number.
const NEXT_MOST: u64 = LAST_NUMBER + 1;

#[tactic(auto, unfolding(crate::specs::Kinds::kind_with, crate::specs::Test::range_n))]
fn range(code: u8, q: u16, n: u16, fixed: u8, mask: u8) -> bool
    ensures { result ≡ range_n code q n fixed mask }
{
    if thread_or_gate(code) {
        return q == 1;
    }
    let holds = match Kind::with_code(code) {
        Some(Kind::Segment) => n <= MAX_LENGTH && fixed <= 1,
        Some(Kind::Container) => mask <= MAX_MASK,
        _ => false,
    };
    1 <= q && q <= ROOT_QUOTA && holds
}

#[tactic(auto, unfolding(crate::specs::Test::range_b))]
fn range_ok(b: &Book, r: Row) -> bool
    ensures { result ≡ range_b (view b.now) r }
{
    range(
        KIND.get(b, r),
        QUOTA.get(b, r),
        LEN.get(b, r),
        FIXED.get(b, r),
        MASK.get(b, r),
    )
}

// Whether no live row below n has this id.
pub fn id_absent(b: &Book, n: usize, id: u64) -> bool
    requires { n ≤ row_count }
    ensures { result ≡ every n (λ r. not (has_id (view b.now) id r)) }
{
    (0..n).all(|r| !has_id(b, id, r as Row))
}

// The place of an id's mark.
#[tactic(auto, unfolding(crate::specs::Marks::mark_place))]
fn mark_of(id: u64) -> usize
    ensures { (result ≡ mark_place id) × (result < mark_count) }
{
    (id % MARKS as u64) as usize
}

// Whether the mark at this place is made.
#[tactic(auto, unfolding(crate::specs::Marks::mark_at))]
fn has_mark(marks: &[u8; MARK_BYTES], place: usize) -> bool
    requires { place < mark_count }
    ensures { result ≡ eqb (mark_at marks.now place) 1 }
{
    (marks[place / 8] >> (place % 8)) % 2 == 1
}

fn set_mark(marks: &mut [u8; MARK_BYTES], place: usize)
    requires { place < mark_count }
    ensures { marks.new ≡ mark_set marks.old place }
{
    marks[place / 8] = marks[place / 8] | 1 << (place % 8);
}

// Whether no live row below r has the id of row r. Those rows are looked at only where one of them made the same mark.
fn id_new(b: &Book, r: Row, id: u64, marks: &mut [u8; MARK_BYTES]) -> bool
    requires { (id ≡ id_of (view b.now) r) × Marked (view b.now) r marks.old }
    ensures { (result ≡ new_b (view b.now) r) × Marked (view b.now) (r + 1) marks.new }
{
    let place = mark_of(id);
    if !has_mark(marks, place) {
        set_mark(marks, place);
        return true;
    }
    id_absent(b, usize::from(r), id)
}

#[tactic(auto, unfolding(crate::specs::Test::id_b))]
fn id_ok(b: &Book, r: Row, marks: &mut [u8; MARK_BYTES]) -> bool
    requires { Marked (view b.now) r marks.old }
    ensures { (result ≡ id_b (view b.now) r) × (result ≡ true → Marked (view b.now) (r + 1) marks.new) }
{
    let id = ID.get(b, r);
    1 <= id && id < next(b) && id_new(b, r, id, marks)
}

// The clearance of row r, which has this label.
fn clear_ok(b: &Book, r: Row, label: LabelRef) -> bool
    requires { (meant label ≡ label_of (view b.now) r) }
    ensures { result ≡ clear_b (view b.now) r }
{
    let clearance = clearance_of(b, r);
    well_formed(clearance, next(b), false) && compare_two(Rule::Flows, label, clearance)
}

fn label_ok(b: &Book, r: Row) -> bool
    ensures { result ≡ label_b (view b.now) r }
{
    let cleared = thread_or_gate(KIND.get(b, r));
    let label = label_of(b, r);
    well_formed(label, next(b), cleared) && (!cleared || clear_ok(b, r, label))
}

#[tactic(auto, unfolding(crate::specs::Test::row_b))]
fn row_ok(b: &Book, r: Row, marks: &mut [u8; MARK_BYTES]) -> bool
    requires { Marked (view b.now) r marks.old }
    ensures { (result ≡ row_b (view b.now) r) × (result ≡ true → Marked (view b.now) (r + 1) marks.new) }
{
    KIND.get(b, r) == FREE || range_ok(b, r) && id_ok(b, r, marks) && label_ok(b, r)
}

fn each_ok(b: &Book, marks: &mut [u8; MARK_BYTES]) -> bool
    requires { marks.old ≡ replicate mark_bytes 0 }
    ensures { result ≡ every row_count (row_b (view b.now)) }
{
    for r in 0..ROWS {
        if !row_ok(b, r as Row, marks) {
            return false;
        }
    }
    true
}

// Whether the next number and every row by itself are in order.
#[tactic(auto, unfolding(crate::specs::Test::rows_b))]
pub fn rows_ok(b: &Book) -> bool
    ensures { result ≡ rows_b (view b.now) }
{
    next(b) <= NEXT_MOST && each_ok(b, &mut [0; MARK_BYTES])
}
