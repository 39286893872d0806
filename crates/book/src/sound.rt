// Whether a book is sound: asked of every book that is lent.
ghost use Rattle.std.specs.Prelude.{◌≡◌, true, false, MatchOption};
ghost use Rattle.tables.specs.Layout.{view};
ghost use Rattle.book.specs.Test.{sound_b, book_b, areas_b};

use super::limits::BLOCK_SIZE;
use super::sound_blocks::blocks_ok;
use super::sound_links::links_ok;
use super::sound_rows::rows_ok;
use tables::{BLOCKS, Book, book_in};

// RULES 1.8: ".. the data area, 16,384 bytes in 256 blocks of 64."
pub const AREA_LEN: usize = BLOCKS * BLOCK_SIZE;

#[tactic(auto, unfolding(crate::specs::Test::sound_b))]
fn tables_ok(b: &Book) -> bool
    ensures { result ≡ sound_b (view b.now) }
{
    rows_ok(b) && links_ok(b) && blocks_ok(b)
}

// Whether these are the bytes of a sound book.
#[tactic(auto, unfolding(crate::specs::Test::book_b))]
pub fn sound(b: &[u8]) -> bool
    ensures { result ≡ book_b b.now }
{
    book_in(b).is_some_and(tables_ok)
}

// The book that is lent, if both areas have their lengths and it is sound.
#[tactic(auto, unfolding(crate::specs::Test::areas_b))]
pub fn sound_book<'a>(b: &'a [u8], area: &[u8]) -> Option<&'a Book>
    ensures { MatchOption result (areas_b b.now area.now ≡ false) (λ w. (areas_b b.now area.now ≡ true) × (w.now ≡ b.now)) }
{
    let book = book_in(b)?;
    (area.len() == AREA_LEN && tables_ok(book)).then_some(book)
}
