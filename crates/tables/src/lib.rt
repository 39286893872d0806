// The book's tables (docs/BOOK.md): their numbers, where they start, and one accessor for each width. A contract speaks of the
// book as a record of tables, `view`, and never of bytes.
#![tactic(auto)]

ghost use Rattle.std.specs.Prelude.{◌≡◌, ℕ, ◌+◌, ◌*◌, ◌<◌, ◌≤◌, ◌≢◌, length, get_or, take, drop, MatchOption};
ghost use Rattle.std.specs.Borrow.{sem, Lends, Array, u8};
ghost use Rattle.labels.specs.Core.{word_count, words_at, spelt};
ghost use Rattle.tables.specs.Layout.{table_count, w_of, n_of, base, size, view, tab_of, put_t, run_t, empty, Slot, Run};

use labels::WORDS;
use labels::number::Number;
use std::marker::PhantomData;

// ---- how many of each

pub const ROWS: usize = 256;

// A link is a number below this: no type of the language has just these, and a struct would bring its field into each contract.
pub const LINKS: usize = 255;

pub const BLOCKS: usize = 256;

// A row is a byte, and so is a block: there is no row or block that a byte does not name.
pub type Row = u8;

pub type Block = u8;

// So another number of rows or of blocks is refused here: it wants another type.
const _: () = prove!(ROWS == Row::MAX as usize + 1);

const _: () = prove!(BLOCKS == Block::MAX as usize + 1);

// A search or a walk over all of them ends here.
pub const LAST_ROW: Row = (ROWS - 1) as Row;

pub const LAST_BLOCK: Block = (BLOCKS - 1) as Block;

// The bytes of a description, and of a gate's closure.
pub const TEXT_SIZE: usize = 32;

// ---- a table

// What a table is asked by: a row, a block, or a number.
pub trait Place: Copy {
    ghost place: { Self → ℕ };

    fn place(self) -> usize
        ensures { result ≡ place self };
}

impl Place for u8 {
    ghost place = { λ x. x };

    fn place(self) -> usize {
        usize::from(self)
    }
}

impl Place for usize {
    ghost place = { λ x. x };

    fn place(self) -> usize {
        self
    }
}

// A table, by its number: what it is asked by, and what its numbers are.
#[derive(Clone, Copy)]
pub struct Table<I, N> {
    number: usize,
    by: PhantomData<I>,
    of: PhantomData<N>,
}

macro_rules! table {
    ($number:literal) => {
        Table {
            number: $number,
            by: PhantomData,
            of: PhantomData,
        }
    };
}

// ---- the tables: the number of each, and where it starts, past the one before it. Side by side, not an array of rows: so docs/BOOK.md
// lays a book out, and hosts outside write it.

// The next number to be issued, and the root's id.
pub const NEXT: Table<usize, u64> = table!(0);

const NEXT_BASE: usize = 0;

pub const ROOT: Table<usize, u64> = table!(1);

const ROOT_BASE: usize = NEXT_BASE + 8;

// One number for each row.
pub const ID: Table<Row, u64> = table!(2);

const ID_BASE: usize = ROOT_BASE + 8;

pub const KIND: Table<Row, u8> = table!(3);

const KIND_BASE: usize = ID_BASE + 8 * ROWS;

pub const MASK: Table<Row, u8> = table!(4);

const MASK_BASE: usize = KIND_BASE + ROWS;

pub const FIXED: Table<Row, u8> = table!(5);

const FIXED_BASE: usize = MASK_BASE + ROWS;

pub const QUOTA: Table<Row, u16> = table!(6);

const QUOTA_BASE: usize = FIXED_BASE + ROWS;

pub const LEN: Table<Row, u16> = table!(7);

const LEN_BASE: usize = QUOTA_BASE + 2 * ROWS;

pub const ENTRY: Table<Row, u64> = table!(8);

const ENTRY_BASE: usize = LEN_BASE + 2 * ROWS;

// A row's label and clearance: one default, and WORDS words.
pub const LABEL_DEFAULT: Table<Row, u8> = table!(9);

const LABEL_DEFAULT_BASE: usize = ENTRY_BASE + 8 * ROWS;

pub const LABEL_WORDS: Table<usize, u64> = table!(10);

const LABEL_WORDS_BASE: usize = LABEL_DEFAULT_BASE + ROWS;

pub const CLEAR_DEFAULT: Table<Row, u8> = table!(11);

const CLEAR_DEFAULT_BASE: usize = LABEL_WORDS_BASE + 8 * ROWS * WORDS;

pub const CLEAR_WORDS: Table<usize, u64> = table!(12);

const CLEAR_WORDS_BASE: usize = CLEAR_DEFAULT_BASE + ROWS;

// A row's texts: TEXT_SIZE bytes each.
pub const DESCRIPTION: Table<usize, u8> = table!(13);

const DESCRIPTION_BASE: usize = CLEAR_WORDS_BASE + 8 * ROWS * WORDS;

pub const CLOSURE: Table<usize, u8> = table!(14);

const CLOSURE_BASE: usize = DESCRIPTION_BASE + ROWS * TEXT_SIZE;

// Of a link: the container's row plus 1, or 0 where the link is free; the object's row.
pub const LINK_FROM: Table<usize, u16> = table!(15);

const LINK_FROM_BASE: usize = CLOSURE_BASE + ROWS * TEXT_SIZE;

pub const LINK_TO: Table<usize, u16> = table!(16);

const LINK_TO_BASE: usize = LINK_FROM_BASE + 2 * LINKS;

// Of a block: the segment's row plus 1, or 0 where the block is free; which of the segment's blocks it is.
pub const OWNER: Table<Block, u16> = table!(17);

const OWNER_BASE: usize = LINK_TO_BASE + 2 * LINKS;

pub const INDEX: Table<Block, u8> = table!(18);

const INDEX_BASE: usize = OWNER_BASE + 2 * BLOCKS;

// The length of a book.
pub const BOOK_LEN: usize = INDEX_BASE + BLOCKS;

// A book's bytes.
pub type Book = [u8; BOOK_LEN];

// How many tables there are.
const TABLES: usize = 19;

const BASES: [usize; TABLES] = [
    NEXT_BASE,
    ROOT_BASE,
    ID_BASE,
    KIND_BASE,
    MASK_BASE,
    FIXED_BASE,
    QUOTA_BASE,
    LEN_BASE,
    ENTRY_BASE,
    LABEL_DEFAULT_BASE,
    LABEL_WORDS_BASE,
    CLEAR_DEFAULT_BASE,
    CLEAR_WORDS_BASE,
    DESCRIPTION_BASE,
    CLOSURE_BASE,
    LINK_FROM_BASE,
    LINK_TO_BASE,
    OWNER_BASE,
    INDEX_BASE,
];

fn base_of(t: usize) -> usize
    requires { t < table_count }
    ensures { result ≡ base t }
{
    BASES[t]
}

// Where number i of table t begins, each taking w bytes; the number past the last begins where the table ends.
fn place_of(t: usize, i: usize, w: usize) -> usize
    requires { (t < table_count) × (w_of t ≡ w) × (i ≤ n_of t) }
    ensures { (result ≡ base t + i * w) × (result ≤ size) × (i < n_of t → result + w ≤ size) }
{
    base_of(t) + i * w
}

// The book that the bytes are, if they are as many as a book has.
pub fn book_in(b: &[u8]) -> Option<&Book>
    ensures { MatchOption result (length b.now ≢ size) (λ w. (length b.now ≡ size) × (w.now ≡ b.now)) }
{
    b.as_array()
}

// The same bytes as an array that is written: a book, or a data area.
pub fn array_in_mut<const N: usize>(bytes: &mut [u8]) -> &mut [u8; N]
    requires { length bytes.old ≡ N }
    ensures* writes_back { sem 𝓛 (Lends (Array u8 0) (Array u8 0) bytes.entry result (λ w. w)) }
    ensures value { result.now ≡ bytes.old }
{
    let Some(w) = bytes.as_mut_array() else {
        unreachable!()
    };
    w
}

// ---- one number

impl<I: Place, N: Number> Table<I, N> {
    // The table's number at i.
    pub fn get(self, b: &Book, i: I) -> N
        requires { Slot b.now self.number N.WIDTH (I.place i) }
        ensures { N.value result ≡ get_or (tab_of (view b.now) self.number) (I.place i) 0 }
    {
        N::get(b, place_of(self.number, i.place(), N::WIDTH))
    }

    // Makes v the table's number at i.
    pub fn put(self, b: &mut Book, i: I, v: N)
        requires { Slot b.old self.number N.WIDTH (I.place i) }
        ensures { view b.new ≡ put_t self.number (I.place i) (N.value v) (view b.old) }
    {
        v.put(b, place_of(self.number, i.place(), N::WIDTH));
    }
}

// The next number to be issued.
pub fn next(b: &Book) -> u64
    ensures { result ≡ get_or (view b.now).next 0 0 }
{
    NEXT.get(b, 0)
}

// The root's id.
pub fn root(b: &Book) -> u64
    ensures { result ≡ get_or (view b.now).root 0 0 }
{
    ROOT.get(b, 0)
}

// ---- numbers in a row

impl<I: Place> Table<I, u8> {
    // The bytes of the book that are n numbers of the table, from number i on.
    pub fn run(self, b: &Book, i: usize, n: usize) -> &[u8]
        requires { Run b.now self.number 1 i n }
        ensures { (result.now ≡ take n (drop i (tab_of (view b.now) self.number))) × (length result.now ≡ n) }
    {
        let from = place_of(self.number, i, 1);
        &b[from..from + n]
    }
}

impl<I: Place> Table<I, u64> {
    // Where as many numbers as a label has words begin in the book's bytes.
    pub fn words_from(self, b: &Book, i: usize) -> usize
        requires { Run b.now self.number 8 i word_count }
        ensures { (result + word_count * 8 ≤ length b.now) × (words_at word_count b.now result ≡ take word_count (drop i (tab_of (view b.now) self.number))) }
    {
        place_of(self.number, i, 8)
    }

    // The bytes of the book that spell n numbers of the table, from number i on.
    pub fn words(self, b: &Book, i: usize, n: usize) -> &[u8]
        requires { Run b.now self.number 8 i n }
        ensures { (spelt result.now ≡ take n (drop i (tab_of (view b.now) self.number))) × (length result.now ≡ n * 8) }
    {
        let from = place_of(self.number, i, 8);
        &b[from..from + n * 8]
    }
}

impl<I: Place, N: Number> Table<I, N> {
    // The same table, asked by a number.
    fn numbered(self) -> Table<usize, N>
        ensures { result.number ≡ self.number }
    {
        Table {
            number: self.number,
            by: PhantomData,
            of: PhantomData,
        }
    }

    // Puts the numbers of `s` into the table, from number i on.
    pub fn put_run(self, b: &mut Book, i: usize, s: &[N])
        requires { Run b.old self.number N.WIDTH i (length s.now) }
        ensures { view b.new ≡ run_t self.number i (N.values s.now) (view b.old) }
    {
        let table = self.numbered();
        for j in 0..s.len() {
            table.put(b, i + j, s[j]);
        }
    }
}

// ---- the whole

// Makes every byte 0.
pub fn clear(b: &mut Book)
    ensures { view b.new ≡ empty }
{
    *b = [0; BOOK_LEN];
}
