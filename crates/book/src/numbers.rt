// Numbers of a table's width as numbers that are counted with.
ghost use Rattle.std.specs.Prelude.{◌≡◌, ◌-◌, ◌<◌, ◌≤◌};
ghost use Rattle.tables.specs.Layout.{row_count};
ghost use Rattle.book.specs.Book.{blocks_of};

use super::limits::{BLOCK_SIZE, ROUND_UP};
use tables::Row;

// The row that a mark names: a mark is 0, or one more than a row.
pub fn row_of(mark: u16) -> Row
    requires { (mark ≡ 0 → ⊥) × (mark ≤ row_count) }
    ensures { result ≡ mark - 1 }
{
    (mark - 1) as Row
}

// The blocks that a segment of this length has.
pub fn blocks_of(len: u16) -> usize
    ensures { (result ≡ blocks_of len) × (result < 1025) }
{
    (usize::from(len) + ROUND_UP) / BLOCK_SIZE
}
