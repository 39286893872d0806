// The kinds with their codes, and the largest mask, each named here alone.
ghost use Rattle.std.specs.Prelude.{◌≡◌};
ghost use Rattle.book.specs.Book.{is_thread_or_gate};
ghost use Rattle.book.specs.Kinds.{kind_with};

// In place of a kind's code where the row is free: a number, since the table of codes holds it and the kinds' codes alike.
pub const FREE: u8 = 0;

// RULES 1.1: "An object is of one of four kinds, each with a code: thread (1), gate (2), segment (3),
// container (4)."
#[derive(Clone, Copy, PartialEq, Eq)]
pub enum Kind {
    Thread = 1,
    Gate = 2,
    Segment = 3,
    Container = 4,
}

impl From<Kind> for u8 {
    ghost use Rattle.std.specs.Prelude.{◌≡◌};
    ghost use Rattle.book.specs.Kinds.{code_of_kind};

    ghost from_gives = { λ kind code. code ≡ code_of_kind kind };

    fn from(kind: Kind) -> u8 {
        kind as u8
    }
}

// The codes by themselves, for what goes by the code.
pub const THREAD: u8 = Kind::Thread as u8;

pub const GATE: u8 = Kind::Gate as u8;

pub const SEGMENT: u8 = Kind::Segment as u8;

pub const CONTAINER: u8 = Kind::Container as u8;

impl Kind {
    // The kind that has this code, if one has it: a free row's code is no kind's and no error.
    #[tactic(auto, unfolding(crate::specs::Kinds::kind_with))]
    pub fn with_code(code: u8) -> Option<Kind>
        ensures { result ≡ kind_with code }
    {
        match code {
            THREAD => Some(Kind::Thread),
            GATE => Some(Kind::Gate),
            SEGMENT => Some(Kind::Segment),
            CONTAINER => Some(Kind::Container),
            _ => None,
        }
    }
}

// RULES 1.6: "A container also has a mask, a number from 0 to 15 that forbids kinds: .."
pub const MAX_MASK: u8 = 15;

// Whether the code of a live row is a thread's or a gate's: these have a clearance, and star may stand in their labels.
// A code and not a kind: in a book that is not sound it may be no kind's.
pub fn thread_or_gate(code: u8) -> bool
    ensures { result ≡ is_thread_or_gate code }
{
    code <= u8::from(Kind::Gate)
}
