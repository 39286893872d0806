// Numbers of docs/RULES.md, each named here alone. Those of kinds stand in kinds.rt, those of the tables in their crate.

// RULES 1.8: ".. the data area, 16,384 bytes in 256 blocks of 64."
pub const BLOCK_SIZE: usize = 64;

// With it added, a division by the size of a block rounds up.
pub const ROUND_UP: usize = BLOCK_SIZE - 1;

// RULES 1.5: "A segment also has its bytes, at most 16,256 of them, .."
pub const MAX_LENGTH: u16 = 16256;

// RULES 3.6: "The root's quota is 256 for good."
pub const ROOT_QUOTA: u16 = 256;

// RULES 4.4: "The last number is 2305843009213693951, which is 2^61 - 1."
pub const LAST_NUMBER: u64 = 2305843009213693951;
