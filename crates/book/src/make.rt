// An object created and a link added: the lowest free row and the lowest free link are filled, and the number moves on.
ghost use Rattle.std.specs.Prelude.{◌≡◌, ◌<◌, ◌*◌, length};
ghost use Rattle.rules.specs.Kernel.{text_size};
ghost use Rattle.tables.specs.Layout.{link_count, view, description_t, closure_t, run_t};
ghost use Rattle.book.specs.Enact.{free_row, free_link, row_filled, link_filled};
ghost use Rattle.book.specs.Make.{object_of, numbers_filled, placed_in, place_for, created_in, linked_in, Filling, Creating, Linking};

use super::alter::{move_on, relabel};
use super::kinds::FREE;
use labels::Label;
use tables::{
    Book, CLOSURE, DESCRIPTION, ENTRY, FIXED, ID, KIND, LAST_ROW, LEN, LINK_FROM, LINK_TO, LINKS,
    MASK, QUOTA, Row, TEXT_SIZE, next,
};

// What a new row holds; what its kind does not have is 0. Its texts go beside it: a definition gives the whole of it, and cannot name
// a slice that is lent.
#[derive(Clone, Copy)]
pub struct NewRow {
    // The code of its kind and no kind: what is handed over may be absent, which has FREE, and `create` answers for that too.
    pub kind: u8,
    pub mask: u8,
    pub quota: u16,
    pub entry: u64,
    pub label: Label,
    pub clearance: Label,
}

// ---- the lowest free places

pub fn free_row(b: &Book) -> Option<Row>
    ensures { result ≡ free_row (view b.now) }
{
    (0..=LAST_ROW).find(|&r| KIND.get(b, r) == FREE)
}

pub fn free_link(b: &Book) -> Option<usize>
    ensures { result ≡ free_link (view b.now) }
{
    (0..LINKS).find(|&l| LINK_FROM.get(b, l) == 0)
}

// ---- a row and a link

#[tactic(auto, unfolding(crate::specs::Make::numbers_filled))]
fn fill_numbers(b: &mut Book, r: Row, id: u64, kind: u8, mask: u8, quota: u16, entry: u64)
    ensures { view b.new ≡ numbers_filled r id kind mask quota entry (view b.old) }
{
    ID.put(b, r, id);
    KIND.put(b, r, kind);
    MASK.put(b, r, mask);
    FIXED.put(b, r, 0);
    QUOTA.put(b, r, quota);
    LEN.put(b, r, 0);
    ENTRY.put(b, r, entry);
}

fn fill_texts(b: &mut Book, r: Row, description: &[u8], closure: &[u8])
    requires { (length description.now ≡ text_size) × (length closure.now ≡ text_size) }
    ensures { view b.new ≡ run_t closure_t (r * text_size) closure.now (run_t description_t (r * text_size) description.now (view b.old)) }
{
    DESCRIPTION.put_run(b, usize::from(r) * TEXT_SIZE, description);
    CLOSURE.put_run(b, usize::from(r) * TEXT_SIZE, closure);
}

// Every field of row r is written.
#[tactic(auto, using(crate::specs::Laws::Handed::filled_is))]
pub fn fill_row(b: &mut Book, r: Row, id: u64, row: NewRow, description: &[u8], closure: &[u8])
    requires { Filling b.old r row description.now closure.now }
    ensures { view b.new ≡ row_filled r id (object_of row description.now closure.now) (view b.old) }
{
    fill_numbers(b, r, id, row.kind, row.mask, row.quota, row.entry);
    relabel(b, r, row.label, row.clearance);
    fill_texts(b, r, description, closure);
}

// Link l leads from row c to row o.
#[tactic(auto, unfolding(crate::specs::Enact::link_filled))]
pub fn fill_link(b: &mut Book, l: usize, c: Row, o: Row)
    requires { l < link_count }
    ensures { view b.new ≡ link_filled l c o (view b.old) }
{
    LINK_FROM.put(b, l, u16::from(c) + 1);
    LINK_TO.put(b, l, u16::from(o));
}

// ---- the changes

// A new object in the container at row c; the row it is in, or nothing where no place is free.
#[tactic(auto, using(crate::specs::Laws::Places::free_row_low, crate::specs::Laws::Places::link_low), unfolding(crate::specs::Make::place_for, crate::specs::Make::placed_in))]
fn place(b: &mut Book, c: Row, row: NewRow, description: &[u8], closure: &[u8]) -> Option<Row>
    requires { Creating b.old c row description.now closure.now }
    ensures value { result ≡ place_for (view b.old) }
    ensures b_after { view b.new ≡ placed_in c (object_of row description.now closure.now) (view b.old) }
{
    let r = free_row(b)?;
    let l = free_link(b)?;
    let id = next(b);
    fill_row(b, r, id, row, description, closure);
    fill_link(b, l, c, r);
    Some(r)
}

#[tactic(auto, using(crate::specs::Laws::Places::placed_going), unfolding(crate::specs::Make::created_in))]
pub fn create(b: &mut Book, c: Row, row: NewRow, description: &[u8], closure: &[u8]) -> Option<Row>
    requires { Creating b.old c row description.now closure.now }
    ensures value { result ≡ place_for (view b.old) }
    ensures b_after { view b.new ≡ created_in c (object_of row description.now closure.now) (view b.old) }
{
    let found = place(b, c, row, description, closure);
    move_on(b);
    found
}

// The object at row o is linked in the container at row c; the link, or nothing where none is free.
#[tactic(auto, using(crate::specs::Laws::Places::link_low, crate::specs::Laws::Places::linked_going), unfolding(crate::specs::Make::linked_in))]
pub fn add_link(b: &mut Book, c: Row, o: Row) -> Option<usize>
    requires { Linking b.old c o }
    ensures value { result ≡ free_link (view b.old) }
    ensures b_after { view b.new ≡ linked_in c o (view b.old) }
{
    let Some(l) = free_link(b) else {
        move_on(b);
        return None;
    };
    fill_link(b, l, c, o);
    move_on(b);
    Some(l)
}
