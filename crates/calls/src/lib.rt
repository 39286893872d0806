// The calls of docs/RULES.md, section 8: each judges, by labels and book, what the rules say of the world that the areas spell, and enacts it.
#![tactic(auto)]

// A call's areas and arguments come one by one, as C lends them, and its contract speaks of each; a call hands them to its judge as they
// came, since what the rules say is said of them.

// What a call answers: granted with its value, or refused.
pub type Answer = Result<u64, Refusal>;

// Why a call is refused (RULES 6), by the names of the C header.
#[derive(Clone, Copy, PartialEq, Eq, Debug)]
pub enum Refusal {
    BadArea,
    NumbersEnded,
    NoCaller,
    BadArgument,
    NoEntry,
    WrongKind,
    LabelForbids,
    MaskForbids,
    QuotaFixed,
    AlreadyLinked,
    BeyondLength,
    NinthPair,
    NoSpare,
}

pub mod spread; // spread.rt: an answer as two numbers
pub mod begin; // begin.rt: what every call asks first
pub mod leave; // leave.rt: the way out of a refused call
pub mod conditions; // conditions.rt: the label conditions of answer 7
pub mod lookup; // lookup.rt: a container or an entry that a thread may read
pub mod unreference; // unreference.rt: call 8
pub mod arguments; // arguments.rt: labels and texts that are lent
pub mod relabel; // relabel.rt: the caller takes labels
pub mod set_label; // set_label.rt: call 2
pub mod set_clearance; // set_clearance.rt: call 3
pub mod fix_quota; // fix_quota.rt: call 10
pub mod create_category; // create_category.rt: call 1
pub mod start; // start.rt: Start
pub mod masks; // masks.rt: which kinds a container forbids
pub mod creating; // creating.rt: what calls 4 to 7 share
pub mod create_segment; // create_segment.rt: call 5
pub mod link_segment; // link_segment.rt: call 9
pub mod look; // look.rt: call 16
pub mod create_container; // create_container.rt: call 4
pub mod create_gate; // create_gate.rt: call 6
pub mod create_thread; // create_thread.rt: call 7
pub mod resize; // resize.rt: call 14
pub mod amount; // amount.rt: a signed number of units
pub mod move_quota; // move_quota.rt: call 11
pub mod enter_gate; // enter_gate.rt: call 15
pub mod part; // part.rt: what calls 12 and 13 share
pub mod write; // write.rt: call 13
pub mod read; // read.rt: call 12
