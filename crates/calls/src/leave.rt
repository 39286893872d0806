// The way out of a refused call.
ghost use Rattle.std.specs.Prelude.{◌≡◌};
ghost use Rattle.rules.specs.Kernel as kernel;
ghost use Rattle.calls.specs.Outcome.{ruled, Leavable, LeavesBy};

use super::Refusal;
use book::alter::move_on;
use tables::array_in_mut;

// RULES 4.2: "Only answers 1 and 2 use up none." A number, since the rules say it of the answers' numbers.
const LAST_FREE: u64 = 2;

// A refusal's number.
impl From<Refusal> for u64 {
    ghost from_gives = { λ r n. n ≡ kernel.number_of (ruled r) };

    fn from(r: Refusal) -> u64 {
        match r {
            Refusal::BadArea => 1,
            Refusal::NumbersEnded => 2,
            Refusal::NoCaller => 3,
            Refusal::BadArgument => 4,
            Refusal::NoEntry => 5,
            Refusal::WrongKind => 6,
            Refusal::LabelForbids => 7,
            Refusal::MaskForbids => 8,
            Refusal::QuotaFixed => 9,
            Refusal::AlreadyLinked => 10,
            Refusal::BeyondLength => 11,
            Refusal::NinthPair => 12,
            Refusal::NoSpare => 13,
        }
    }
}

// Whatever call the refusal is right for is done by it: the next number moves on, but for answers 1 and 2.
#[tactic(auto, using(crate::specs::Laws::Leave::can_move))]
pub fn leave<T>(b: &mut [u8], r: Refusal) -> Result<T, Refusal>
    requires { Leavable b.old r }
    ensures { LeavesBy b.old r result b.new }
{
    let n = u64::from(r);
    if n <= LAST_FREE {
        return Err(r);
    }
    move_on(array_in_mut(b));
    Err(r)
}
