// Two comparisons of lent labels as C functions of their own, so that the stack that one takes can be measured (./bench). The kernel uses neither.
#![tactic(auto)]

ghost use Rattle.std.specs.Prelude.{◌≡◌};
ghost use Rattle.compared.specs.Answers.{may_write_lent, floor_flows_lent};

use labels::Rule;
use labels::compare::{compare, may_write};
use labels::in_place::{LABEL_SIZE, from_bytes};

// A number, as C has it: 1 or 0, and 2 where a length is wrong.

// Whether T may write O.
#[tactic(auto, unfolding(crate::specs::Answers::may_write_lent))]
#[unsafe(no_mangle)]
pub extern "C" fn fwc_may_write(t: &[u8], o: &[u8]) -> u64
    ensures { result ≡ may_write_lent t.now o.now }
{
    if t.len() != LABEL_SIZE || o.len() != LABEL_SIZE {
        return 2;
    }
    u64::from(may_write(from_bytes(t), from_bytes(o)))
}

// Whether floor(X, Y) flows to Z.
#[tactic(auto, unfolding(crate::specs::Answers::floor_flows_lent))]
#[unsafe(no_mangle)]
pub extern "C" fn fwc_floor_flows(x: &[u8], y: &[u8], z: &[u8]) -> u64
    ensures { result ≡ floor_flows_lent x.now y.now z.now }
{
    if x.len() != LABEL_SIZE || y.len() != LABEL_SIZE || z.len() != LABEL_SIZE {
        return 2;
    }
    u64::from(compare(
        Rule::FloorFlows,
        from_bytes(x),
        from_bytes(y),
        from_bytes(z),
    ))
}
