// Call 8 on the book: a link is cut with all that hangs on it. Links are turned off down the tree, then rows without a link are freed, then their blocks.
ghost use Rattle.std.specs.Prelude.{◌≡◌, ◌+◌, ◌<◌};
ghost use Rattle.tables.specs.Layout.{view, link_count};
ghost use Rattle.book.specs.Enact.{enact_view, enact_area};
ghost use Rattle.book.specs.Cut.{cut_at, Entry, Cutting, LinkCut, Linked, Ended, Unlinked, end_marked, held_marked, row_freed, rows_freed, rows_swept, Blocked, block_freed};
ghost use Rattle.book.specs.Cut.{blocks_swept, block_swept, area_swept};

use super::alter::move_on;
use super::area::{Area, clear_block};
use super::find::kind_at;
use super::kinds::{FREE, Kind};
use super::numbers::row_of;
use tables::{
    Block, Book, ID, KIND, LAST_BLOCK, LAST_ROW, LINK_FROM, LINK_TO, LINKS, OWNER, ROWS, Row, root,
};

// ---- links

// Turns link l off, and, where it leads to a container, each link in that, and so on down: the number of live links falls at each call. A level of the
// recursion keeps little on the stack: the link after l is answered and the mark is read anew, so neither is kept, and a book has no length to keep.
fn turn_off(b: &mut Book, l: usize) -> usize
    requires { Linked b.old l }
    ensures value { result ≡ l + 1 }
    ensures unlinked { Unlinked (view b.old) l (view b.new) }
{
    let o = LINK_TO.get(b, l);
    LINK_FROM.put(b, l, 0);
    if kind_at(b, o as Row) != Some(Kind::Container) {
        return l + 1;
    }
    let mut mark = o + 1;
    let mut k: usize = 0;
    // No `for`: after a call the next link is the one that it answers.
    while k < LINKS {
        if LINK_FROM.get(b, k) == mark {
            k = turn_off(b, k);
            mark = LINK_TO.get(b, l) + 1;
        } else {
            k += 1;
        }
    }
    l + 1
}

// ---- rows

// Marks the row that link l leads to, if it is live.
#[tactic(auto, unfolding(crate::specs::Cut::end_marked))]
fn mark_end(b: &Book, l: usize, held: &mut [bool; ROWS])
    requires { (Ended b.now) × (l < link_count) }
    ensures { held.new ≡ end_marked (view b.now) l held.old }
{
    if LINK_FROM.get(b, l) == 0 {
        return;
    }
    held[usize::from(LINK_TO.get(b, l))] = true;
}

// Marks each row that a live link leads to.
fn mark_held(b: &Book, held: &mut [bool; ROWS])
    requires { Ended b.now }
    ensures { held.new ≡ held_marked (view b.now) held.old }
{
    for l in 0..LINKS {
        mark_end(b, l, held);
    }
}

// Frees row r unless it is held or the root's.
#[tactic(auto, unfolding(crate::specs::Cut::row_freed, quotas::specs::Any::either))]
fn drop_row(b: &mut Book, r: Row, top: u64, held: bool)
    ensures { view b.new ≡ row_freed (view b.old) r top held }
{
    if held || ID.get(b, r) == top {
        return;
    }
    KIND.put(b, r, FREE);
}

fn drop_rows(b: &mut Book, held: &[bool; ROWS])
    ensures { view b.new ≡ rows_freed held.now (view b.old) }
{
    let top = root(b);
    for r in 0..=LAST_ROW {
        drop_row(b, r, top, held[usize::from(r)]);
    }
}

// Frees each row but the root's that no live link leads to.
fn sweep_rows(b: &mut Book)
    requires { Ended b.old }
    ensures { view b.new ≡ rows_swept (view b.old) }
{
    let mut held = [false; ROWS];
    mark_held(b, &mut held);
    drop_rows(b, &held);
}

// ---- blocks

// Frees block i, and sets it to zero, if its row is free.
#[tactic(auto, unfolding(crate::specs::Cut::block_freed, crate::specs::Cut::block_swept, quotas::specs::Any::both))]
fn drop_block(b: &mut Book, area: &mut Area, i: Block)
    requires { Blocked b.old }
    ensures { (view b.new ≡ block_freed (view b.old) i) × (area.new ≡ block_swept (view b.old) i area.old) }
{
    let owner = OWNER.get(b, i);
    if owner == 0 {
        return;
    }
    if KIND.get(b, row_of(owner)) != FREE {
        return;
    }
    OWNER.put(b, i, 0);
    clear_block(area, i);
}

// Frees the blocks of rows that are free, and sets them to zero.
fn sweep_blocks(b: &mut Book, area: &mut Area)
    requires { Blocked b.old }
    ensures { (view b.new ≡ blocks_swept (view b.old)) × (area.new ≡ area_swept (view b.old) area.old) }
{
    for i in 0..=LAST_BLOCK {
        drop_block(b, area, i);
    }
}

// ---- the whole

// Cuts link l with all that hangs on it.
fn cut_link(b: &mut Book, area: &mut Area, l: usize)
    requires { Entry b.old area.old l }
    ensures { LinkCut (view b.old) l area.old (view b.new) area.new }
{
    turn_off(b, l);
    sweep_rows(b);
    sweep_blocks(b, area);
}

// Call 8's change: the entry that link l is goes, with all that hangs on it, and the number moves on.
pub fn cut_entry(b: &mut Book, area: &mut Area, l: usize)
    requires { Cutting b.old area.old l }
    ensures b_after { view b.new ≡ enact_view (cut_at (view b.old) l) (view b.old) area.old }
    ensures area_after { area.new ≡ enact_area (cut_at (view b.old) l) (view b.old) area.old }
{
    cut_link(b, area, l);
    move_on(b);
}
