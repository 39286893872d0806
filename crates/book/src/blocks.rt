// The blocks of the data area: which is block k of a segment, and which is free.
ghost use Rattle.std.specs.Prelude.{◌≡◌, eqb};
ghost use Rattle.tables.specs.Layout.{view, block_count};
ghost use Rattle.book.specs.Book.{is_block, owner_of, first};
ghost use Rattle.book.specs.Enact.{free_block};

use tables::{BLOCKS, Block, Book, INDEX, LAST_BLOCK, OWNER, Row};

// Whether block x is block k of the segment at row r.
#[tactic(auto, unfolding(quotas::specs::Any::both))]
fn is_block(b: &Book, r: Row, k: usize, x: Block) -> bool
    ensures { result ≡ is_block (view b.now) r k x }
{
    OWNER.get(b, x) == u16::from(r) + 1 && usize::from(INDEX.get(b, x)) == k
}

// The lowest block that is block k of the segment at row r.
pub fn block_of(b: &Book, r: Row, k: usize) -> Option<Block>
    ensures { result ≡ first block_count (is_block (view b.now) r k) }
{
    (0..=LAST_BLOCK).find(|&x| is_block(b, r, k, x))
}

// Whether block x is free.
fn is_free(b: &Book, x: Block) -> bool
    ensures { result ≡ eqb (owner_of (view b.now) x) 0 }
{
    OWNER.get(b, x) == 0
}

// The lowest free block.
pub fn free_block(b: &Book) -> Option<Block>
    ensures { result ≡ free_block (view b.now) }
{
    let x = (0..BLOCKS).find(|&x| is_free(b, x as Block))?;
    Some(x as Block)
}
