// Labels: what they are made of. The modules compare and test them where they are held, add a pair, and turn them into bytes.
#![tactic(auto)]

ghost use Rattle.std.specs.Prelude.{◌≡◌};
ghost use Rattle.labels.specs.Core.{plain};

pub mod words; // words.rt: a category and a level code in one word
pub mod in_place; // in_place.rt: a label's words where they are held
pub mod compare; // compare.rt: the level at a category, and the comparisons
pub mod form; // form.rt: when a label is well formed
pub mod pair; // pair.rt: a label with one pair more
pub mod bytes; // bytes.rt: numbers and labels as bytes
pub mod number; // number.rt: numbers that bytes spell, of one, two or eight bytes

// How many words a label has.
pub const WORDS: usize = 8;

// RULES 2.2: "A label consists of a default code and eight words." The pairs among them stand sorted: no collection of std's keeps them so.
#[derive(Clone, Copy)]
pub struct Label {
    pub default: u64,
    pub words: [u64; WORDS],
}

impl Label {
    // Codes are numbers and no enum: `level` answers what bytes spell, and they may spell 6 or 7, which no level has.
    pub const STAR: u64 = 0;

    pub const LEVEL0: u64 = 1;

    pub const LEVEL1: u64 = 2;

    pub const LEVEL2: u64 = 3;

    pub const LEVEL3: u64 = 4;

    pub const HIGH_STAR: u64 = 5;

    // The label that says `code` of every category.
    pub fn of_default(code: u64) -> Label
        ensures { result ≡ plain code }
    {
        Label {
            default: code,
            words: [0; WORDS],
        }
    }

    pub fn of(default: u64, words: [u64; WORDS]) -> Label
        ensures { (result.default ≡ default) × (result.words ≡ words) }
    {
        Label { default, words }
    }
}

// A label where it is held: its default, and the bytes that spell its words.
#[derive(Clone, Copy)]
pub struct LabelRef<'a> {
    pub default: u64,
    pub words: &'a [u8],
}

// What is compared, of labels X, Y and Z.
#[derive(Clone, Copy)]
pub enum Rule {
    // X flows to Y
    Flows,
    // X flows to high(Y)
    FlowsHigh,
    // floor(X, Y) flows to Z
    FloorFlows,
    // X flows to join(Y, Z)
    FlowsJoin,
    // X flows to join(Y, high(Z))
    FlowsJoinHigh,
}
