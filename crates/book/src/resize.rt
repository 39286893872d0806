// A segment's length is changed: blocks go and come, and every byte that is freed or new is set to zero.
ghost use Rattle.std.specs.Prelude.{◌≡◌, ◌-◌, ◌≤◌, ◌<◌};
ghost use Rattle.rules.specs.Kernel.{segment_code, max_length, resized};
ghost use Rattle.tables.specs.Layout.{view, block_count};
ghost use Rattle.book.specs.Book.{code_of, bytes_of};
ghost use Rattle.book.specs.Sound.{Sound};
ghost use Rattle.book.specs.Enact.{block_added, blocks_added, blocks_dropped, lengthened, area_after};
ghost use Rattle.book.specs.Resize.{is_past, block_dropped, block_wiped, wiped_to, free_cleared, frees_cleared, edge_end, edge_cleared, between_cleared};

use super::area::{Area, clear_block, clear_run};
use super::blocks::{block_of, free_block};
use super::limits::BLOCK_SIZE;
use super::numbers::blocks_of;
use tables::{Block, Book, INDEX, LAST_BLOCK, LEN, OWNER, Row};

// ---- blocks that go

// Whether block x is one of row r, from its block k on.
#[tactic(auto, unfolding(quotas::specs::Any::both))]
fn is_past(b: &Book, r: Row, k: usize, x: Block) -> bool
    ensures { result ≡ is_past (view b.now) r k x }
{
    OWNER.get(b, x) == u16::from(r) + 1 && k <= usize::from(INDEX.get(b, x))
}

fn drop_block(b: &mut Book, area: &mut Area, r: Row, k: usize, x: Block)
    ensures { (view b.new ≡ block_dropped r k x (view b.old)) × (area.new ≡ block_wiped r k x (view b.old) area.old) }
{
    if is_past(b, r, k, x) {
        OWNER.put(b, x, 0);
        clear_block(area, x);
    }
}

// Frees the blocks of row r from its block k on.
fn drop_blocks(b: &mut Book, area: &mut Area, r: Row, k: usize)
    ensures { (view b.new ≡ blocks_dropped r k (view b.old)) × (area.new ≡ wiped_to block_count r k (view b.old) area.old) }
{
    for x in 0..=LAST_BLOCK {
        drop_block(b, area, r, k, x);
    }
}

// ---- blocks that come

// The lowest free block becomes block k of row r. It is not trusted to be zero.
fn add_block(b: &mut Book, area: &mut Area, r: Row, k: usize)
    requires { k < block_count }
    ensures { (view b.new ≡ block_added r k (view b.old)) × (area.new ≡ free_cleared (view b.old) area.old) }
{
    let Some(fresh) = free_block(b) else {
        return;
    };
    OWNER.put(b, fresh, u16::from(r) + 1);
    INDEX.put(b, fresh, k as u8);
    clear_block(area, fresh);
}

// Blocks k up to before `to` of row r, in rising index.
fn add_blocks(b: &mut Book, area: &mut Area, r: Row, k: usize, to: usize)
    requires { to ≤ block_count }
    ensures { (view b.new ≡ blocks_added r k (to - k) (view b.old)) × (area.new ≡ frees_cleared r k (to - k) (view b.old) area.old) }
{
    for i in k..to {
        add_block(b, area, r, i);
    }
}

// ---- the block in which the shorter length ends

// Where the bytes from length lo to length hi end in the block of byte lo.
fn edge_end(lo: usize, hi: usize) -> usize
    requires { lo ≤ hi }
    ensures { result ≡ edge_end lo hi }
{
    let span = hi - BLOCK_SIZE * (lo / BLOCK_SIZE);
    span.min(BLOCK_SIZE)
}

// Sets the bytes from lo to before hi that lie in the block of byte lo to zero. Where lo ends a block, that block is one that goes, or there is none.
#[tactic(auto, using(crate::specs::Laws::First::first_low, crate::specs::Laws::Cleared::edge_span))]
fn clear_edge(b: &Book, area: &mut Area, r: Row, lo: usize, hi: usize)
    requires { lo ≤ hi }
    ensures { area.new ≡ edge_cleared r lo hi (view b.now) area.old }
{
    let Some(x) = block_of(b, r, lo / BLOCK_SIZE) else {
        return;
    };
    let base = BLOCK_SIZE * usize::from(x);
    clear_run(area, base + lo % BLOCK_SIZE, base + edge_end(lo, hi));
}

// Sets the bytes between the lengths m and n to zero.
#[tactic(auto, using(crate::specs::Laws::Cleared::between_less, crate::specs::Laws::Cleared::between_more))]
fn clear_between(b: &Book, area: &mut Area, r: Row, m: u16, n: u16)
    ensures { area.new ≡ between_cleared r m n (view b.now) area.old }
{
    clear_edge(b, area, r, usize::from(m.min(n)), usize::from(m.max(n)));
}

// The segment at row r becomes n bytes long: bytes that stay are as they were, new ones are zero, and so is every byte that is freed.
pub fn resize(b: &mut Book, area: &mut Area, r: Row, n: u16)
    requires { (code_of (view b.old) r ≡ segment_code) × (n ≤ max_length) × (Sound (view b.old)) }
    ensures { (view b.new ≡ lengthened r n (view b.old)) ×
        (area.new ≡ area_after (view b.old) (lengthened r n (view b.old)) r (resized n (bytes_of (view b.old) area.old r)) area.old) }
{
    let old = LEN.get(b, r);
    let blocks = blocks_of(n);
    clear_between(b, area, r, old, n);
    drop_blocks(b, area, r, blocks);
    add_blocks(b, area, r, blocks_of(old), blocks);
    LEN.put(b, r, n);
}
