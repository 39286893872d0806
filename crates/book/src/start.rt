// Start: both areas are cleared, and the root and its thread are made.
ghost use Rattle.std.specs.Prelude.{◌≡◌, true, ◌<◌};
ghost use Rattle.rules.specs.Kernel.{startable, last_number};
ghost use Rattle.tables.specs.Layout.{view};
ghost use Rattle.book.specs.Enact.{start_view, start_area};
ghost use Rattle.book.specs.Make.{root_row, thread_row, root_made, thread_made};

use super::area::{Area, clear_all};
use super::kinds::Kind;
use super::limits::ROOT_QUOTA;
use super::make::{NewRow, fill_link, fill_row};
use labels::Label;
use tables::{Book, NEXT, ROOT, TEXT_SIZE, clear};

// The root has every unit and forbids nothing.
fn root_row() -> NewRow
    ensures { result ≡ root_row }
{
    NewRow {
        kind: u8::from(Kind::Container),
        mask: 0,
        quota: ROOT_QUOTA,
        entry: 0,
        label: Label::of_default(Label::LEVEL1),
        clearance: Label::of_default(0),
    }
}

fn thread_row() -> NewRow
    ensures { result ≡ thread_row }
{
    NewRow {
        kind: u8::from(Kind::Thread),
        mask: 0,
        quota: 1,
        entry: 0,
        label: Label::of_default(Label::LEVEL1),
        clearance: Label::of_default(Label::LEVEL2),
    }
}

// A cleared book gets its numbers and the root.
#[tactic(auto, unfolding(crate::specs::Make::root_made))]
fn make_root(b: &mut Book, first: u64)
    requires { first < last_number }
    ensures { view b.new ≡ root_made first }
{
    clear(b);
    NEXT.put(b, 0, first + 2);
    ROOT.put(b, 0, first);
    let text = [0u8; TEXT_SIZE];
    fill_row(b, 0, first, root_row(), &text, &text);
}

// The root's thread, linked in it.
#[tactic(auto, unfolding(crate::specs::Make::thread_made))]
fn make_thread(b: &mut Book, id: u64)
    ensures { view b.new ≡ thread_made id (view b.old) }
{
    let text = [0u8; TEXT_SIZE];
    fill_row(b, 1, id, thread_row(), &text, &text);
    fill_link(b, 0, 0, 1);
}

// The book and the data area as Start leaves them, whatever bytes were lent.
#[tactic(auto, using(crate::specs::Laws::Start::start_made, crate::specs::Laws::Start::startable_low))]
pub fn start(b: &mut Book, area: &mut Area, first: u64)
    requires { startable first ≡ true }
    ensures b_after { view b.new ≡ start_view first }
    ensures area_after { area.new ≡ start_area }
{
    clear_all(area);
    make_root(b, first);
    make_thread(b, first + 1);
}
