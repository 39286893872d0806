// The book: what the two lent areas mean, whether a book is sound, and the changes a granted call makes.
#![tactic(auto)]

pub mod kinds; // kinds.rt: the codes of the kinds
pub mod limits; // limits.rt: numbers of the rules
pub mod in_place; // in_place.rt: a row's label and clearance where they are held
pub mod make; // make.rt: an object created, a link added
mod numbers; // numbers.rt: numbers of a table's width as numbers that are counted with
mod sound_rows; // sound_rows.rt: ranges, ids and labels of a sound book
mod sound_links; // sound_links.rt: its links, and what is charged
mod sound_blocks; // sound_blocks.rt: its blocks
pub mod sound; // sound.rt: whether a book is sound
pub mod find; // find.rt: lookups by id, and the fields of a row
pub mod start; // start.rt: the root and its thread
pub mod area; // area.rt: bytes of the data area written and cleared
pub mod blocks; // blocks.rt: a segment's blocks, and the free ones
pub mod units; // units.rt: what an object uses, and what it has to spare
pub mod alter; // alter.rt: changes of one row, and of the next number
pub mod cut; // cut.rt: a link cut with all that hangs on it
pub mod resize; // resize.rt: a segment is given another length
