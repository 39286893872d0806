// Lookups: the row of an id, the link between two rows, the entry of an object in a container, and the fields of a row.
ghost use Rattle.std.specs.Prelude.{◌≡◌, ◌<◌, length, eqb};
ghost use Rattle.rules.specs.Kernel.{text_size};
ghost use Rattle.tables.specs.Layout.{view, link_count};
ghost use Rattle.book.specs.Book.{next_of, root_of, id_of, code_of, mask_of, fixed_of, quota_of, len_of, entry_of, label_of, clearance_of, description_of, closure_of, has_id, row_of};
ghost use Rattle.book.specs.Kinds.{code_of_kind, kind_with};
ghost use Rattle.book.specs.Find.{row_of_kind, thread_row, container_row, leads, link_between, entry_place};

use super::in_place;
use super::kinds::{FREE, Kind};
use labels::Label;
use labels::in_place::value;
use tables::{
    Book, CLOSURE, DESCRIPTION, ENTRY, FIXED, ID, KIND, LAST_ROW, LEN, LINK_FROM, LINK_TO, LINKS,
    MASK, QUOTA, Row, TEXT_SIZE,
};

// Where an object stands in a container: the two rows and the link between them.
#[derive(Clone, Copy)]
pub struct Entry {
    pub container: Row,
    pub object: Row,
    pub link: usize,
}

// ---- the fields of a row

pub fn next_of(b: &Book) -> u64
    ensures { result ≡ next_of (view b.now) }
{
    tables::next(b)
}

pub fn root_of(b: &Book) -> u64
    ensures { result ≡ root_of (view b.now) }
{
    tables::root(b)
}

pub fn id_of(b: &Book, r: Row) -> u64
    ensures { result ≡ id_of (view b.now) r }
{
    ID.get(b, r)
}

// The code of the row's kind as it stands there, in a book that is not sound too: a free row has FREE, and a code may be no kind's.
pub fn kind_of(b: &Book, r: Row) -> u8
    ensures { result ≡ code_of (view b.now) r }
{
    KIND.get(b, r)
}

// The kind of the row's object: none where the row is free, or its code is no kind's.
pub fn kind_at(b: &Book, r: Row) -> Option<Kind>
    ensures { result ≡ kind_with (code_of (view b.now) r) }
{
    Kind::with_code(kind_of(b, r))
}

pub fn mask_of(b: &Book, r: Row) -> u64
    ensures { result ≡ mask_of (view b.now) r }
{
    u64::from(MASK.get(b, r))
}

// Whether the segment's quota is fixed.
pub fn fixed_of(b: &Book, r: Row) -> bool
    ensures { result ≡ eqb (fixed_of (view b.now) r) 1 }
{
    FIXED.get(b, r) == 1
}

pub fn quota_of(b: &Book, r: Row) -> u64
    ensures { result ≡ quota_of (view b.now) r }
{
    u64::from(QUOTA.get(b, r))
}

pub fn len_of(b: &Book, r: Row) -> u64
    ensures { result ≡ len_of (view b.now) r }
{
    u64::from(LEN.get(b, r))
}

// The entry number of a gate.
pub fn entry_number_of(b: &Book, r: Row) -> u64
    ensures { result ≡ entry_of (view b.now) r }
{
    ENTRY.get(b, r)
}

// These four are a line each by their names: what asks for a field names it, and no table.

#[tactic(auto, using(crate::specs::Laws::Shapes::label_long))]
pub fn label_of(b: &Book, r: Row) -> Label
    ensures { result ≡ label_of (view b.now) r }
{
    value(in_place::label_of(b, r))
}

#[tactic(auto, using(crate::specs::Laws::Shapes::clearance_long))]
pub fn clearance_of(b: &Book, r: Row) -> Label
    ensures { result ≡ clearance_of (view b.now) r }
{
    value(in_place::clearance_of(b, r))
}

// Fills `out` with the row's description.
pub fn description_into(b: &Book, r: Row, out: &mut [u8])
    requires { length out.old ≡ text_size }
    ensures { out.new ≡ description_of (view b.now) r }
{
    out.copy_from_slice(DESCRIPTION.run(b, usize::from(r) * TEXT_SIZE, TEXT_SIZE));
}

// Fills `out` with the gate's closure bytes.
pub fn closure_into(b: &Book, r: Row, out: &mut [u8])
    requires { length out.old ≡ text_size }
    ensures { out.new ≡ closure_of (view b.now) r }
{
    out.copy_from_slice(CLOSURE.run(b, usize::from(r) * TEXT_SIZE, TEXT_SIZE));
}

// ---- by id

// Whether row r is live and has this id. Its id is looked at first, since it is seldom the one.
#[tactic(auto, unfolding(quotas::specs::Any::both))]
pub fn has_id(b: &Book, id: u64, r: Row) -> bool
    ensures { result ≡ has_id (view b.now) id r }
{
    ID.get(b, r) == id && KIND.get(b, r) != FREE
}

// The lowest live row that has the id.
pub fn row_of(b: &Book, id: u64) -> Option<Row>
    ensures { result ≡ row_of (view b.now) id }
{
    (0..=LAST_ROW).find(|&r| has_id(b, id, r))
}

// The row of the id, if it is of this kind.
#[tactic(auto, using(crate::specs::Laws::Kinds::kind_eq_is, crate::specs::Laws::Find::row_low), unfolding(crate::specs::Find::row_of_kind))]
fn row_of_kind(b: &Book, kind: Kind, id: u64) -> Option<Row>
    ensures { result ≡ row_of_kind (code_of_kind kind) (view b.now) id }
{
    let r = row_of(b, id)?;
    (kind_at(b, r) == Some(kind)).then_some(r)
}

// Two names, as the rules have two words: a caller is a thread, and what is opened a container.

// The row of the id, if it is a thread's.
pub fn thread_of(b: &Book, id: u64) -> Option<Row>
    ensures { result ≡ thread_row (view b.now) id }
{
    row_of_kind(b, Kind::Thread, id)
}

// The row of the id, if it is a container's.
pub fn container_of(b: &Book, id: u64) -> Option<Row>
    ensures { result ≡ container_row (view b.now) id }
{
    row_of_kind(b, Kind::Container, id)
}

// ---- by links

// Whether link l leads from row c to row o.
#[tactic(auto, unfolding(quotas::specs::Any::both))]
fn leads_to(b: &Book, c: Row, o: usize, l: usize) -> bool
    requires { l < link_count }
    ensures { result ≡ leads (view b.now) c o l }
{
    LINK_FROM.get(b, l) == u16::from(c) + 1 && usize::from(LINK_TO.get(b, l)) == o
}

// The lowest live link from row c to row o; to a number that is no row there is none.
pub fn link_of(b: &Book, c: Row, o: usize) -> Option<usize>
    ensures { result ≡ link_between (view b.now) c o }
{
    (0..LINKS).find(|&l| leads_to(b, c, o, l))
}

// The place of the object o in the container d.
#[tactic(auto, using(crate::specs::Laws::Find::container_low), unfolding(crate::specs::Find::entry_place))]
pub fn entry_of(b: &Book, d: u64, o: u64) -> Option<Entry>
    ensures { result ≡ entry_place (view b.now) d o }
{
    let container = container_of(b, d)?;
    let object = row_of(b, o)?;
    let link = link_of(b, container, usize::from(object))?;
    Some(Entry {
        container,
        object,
        link,
    })
}
