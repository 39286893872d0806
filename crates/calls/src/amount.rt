// A signed number of units as an unsigned one and which way it goes.
ghost use Rattle.std.specs.Prelude.{◌≡◌, ◌≤◌};
ghost use Rattle.rules.specs.Kernel.{root_quota};
ghost use Rattle.calls.specs.Amount.{amount_of, quota_for, quota_if, Reckoned, ReckonedIf};

use super::Refusal;

// So many units in, or so many out.
#[derive(Clone, Copy)]
pub enum Amount {
    In(u64),
    Out(u64),
}

// RULES 8.11: "4 unless n is from -256 to 256."
const MAX_MOVE: u64 = 256;

impl TryFrom<i64> for Amount {
    type Error = Refusal;

    ghost try_from_gives = { λ n r. r ≡ amount_of n };

    fn try_from(n: i64) -> Result<Amount, Refusal> {
        let m = n.unsigned_abs();
        if MAX_MOVE < m {
            return Err(Refusal::BadArgument);
        }
        Ok(if n < 0 { Amount::Out(m) } else { Amount::In(m) })
    }
}

// The quota that q becomes by an amount.
#[tactic(auto, using(crate::specs::Laws::Amount::in_most, crate::specs::Laws::Amount::quota_in, crate::specs::Laws::Amount::out_most, crate::specs::Laws::Amount::quota_out))]
pub fn moved_by(q: u64, units: Amount) -> u64
    requires { (q ≤ root_quota) × Reckoned units q }
    ensures { result ≡ quota_for units q }
{
    match units {
        Amount::In(m) => q + m,
        Amount::Out(m) => q - m,
    }
}

// The quota that q becomes by what a signed number comes to: one over the limit moves nothing.
pub fn moved(q: u64, units: Result<Amount, Refusal>) -> u64
    requires { (q ≤ root_quota) × ReckonedIf units q }
    ensures { result ≡ quota_if units q }
{
    match units {
        Ok(amount) => moved_by(q, amount),
        Err(_) => q,
    }
}
