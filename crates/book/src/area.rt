// The data area's bytes.
ghost use Rattle.std.specs.Prelude.{◌≡◌, ◌+◌, ◌≤◌, length, replicate};
ghost use Rattle.std.proofs.lemmas.List.Edits.{sets};
ghost use Rattle.book.specs.Resize.{cleared, block_cleared};

use super::limits::BLOCK_SIZE;
use super::sound::AREA_LEN;
use tables::Block;

// RULES 1.8: ".. the data area, 16,384 bytes in 256 blocks of 64."
pub type Area = [u8; AREA_LEN];

// Puts the bytes into the area from `place` on. Not by `copy_from_slice`: of a length that is not known it asks the host for memmove.
pub fn write_area(area: &mut [u8], place: usize, bytes: &[u8])
    requires { place + length bytes.now ≤ length area.old }
    ensures { area.new ≡ sets area.old place bytes.now }
{
    for j in 0..bytes.len() {
        area[place + j] = bytes[j];
    }
}

// Sets the bytes from `from` to before `to` to zero.
#[tactic(auto, using(crate::specs::Laws::Cleared::cleared_run))]
pub fn clear_run(area: &mut [u8], from: usize, to: usize)
    requires { (from ≤ to) × (to ≤ length area.old) }
    ensures { area.new ≡ cleared from to area.old }
{
    area[from..to].fill(0);
}

// Sets every byte to zero, of the data area or of an output.
pub fn clear_all(area: &mut [u8])
    ensures { area.new ≡ replicate (length area.old) 0 }
{
    area.fill(0);
}

// Sets all bytes of block x to zero.
pub fn clear_block(area: &mut Area, x: Block)
    ensures { area.new ≡ block_cleared x area.old }
{
    let from = BLOCK_SIZE * usize::from(x);
    clear_run(area, from, from + BLOCK_SIZE);
}
