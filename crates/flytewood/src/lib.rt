// The kernel's functions, under the names that C has for them (`flytewood_c` exports each): each thin over one of `calls`, with the whole contract and
// no requires. C is answered by numbers, as include/ names them; a Result stops here.
#![tactic(auto)]

ghost use Rattle.std.specs.Prelude.{◌≡◌, cond, [], eqb, length};
ghost use Rattle.rules.specs.Kernel as kernel;
ghost use Rattle.tables.specs.Layout.{size};
ghost use Rattle.flytewood.specs.Called.{Called, Started, ReadAs};

use calls::create_category::create_category;
use calls::create_container::create_container;
use calls::create_gate::create_gate;
use calls::create_segment::create_segment;
use calls::create_thread::create_thread;
use calls::enter_gate::enter_gate;
use calls::fix_quota::fix_quota;
use calls::link_segment::link_segment;
use calls::look::look;
use calls::move_quota::move_quota;
use calls::read::locate;
use calls::resize::resize;
use calls::set_clearance::set_clearance;
use calls::set_label::set_label;
use calls::spread::spread_answer;
use calls::start::start;
use calls::unreference::unreference;
use calls::write::write;
use tables::BOOK_LEN;

// The book's one length.
pub fn fw_book_len() -> u64
    ensures { result ≡ size }
{
    BOOK_LEN as u64
}

// Start: the root container `first` and in it the thread `first` + 1.
pub fn fw_start(b: &mut [u8], area: &mut [u8], first: u64) -> u64
    ensures { Started b.old area.old first result b.new area.new }
{
    match start(b, area, first) {
        Ok(()) => 0,
        Err(refused) => u64::from(refused),
    }
}

// Call 1: a new category.
pub fn fw_create_category(b: &mut [u8], area: &mut [u8], caller: u64, value: &mut u64) -> u64
    ensures { Called b.old area.old caller kernel.create_category [] result value.new b.new area.new [] }
{
    spread_answer(create_category(b, area, caller), value)
}

// Call 2: the caller's label.
pub fn fw_set_label(
    b: &mut [u8],
    area: &mut [u8],
    caller: u64,
    label: &[u8],
    value: &mut u64,
) -> u64
    ensures { Called b.old area.old caller (kernel.set_label label.now) [] result value.new b.new area.new [] }
{
    spread_answer(set_label(b, area, caller, label), value)
}

// Call 3: the caller's clearance.
pub fn fw_set_clearance(
    b: &mut [u8],
    area: &mut [u8],
    caller: u64,
    clearance: &[u8],
    value: &mut u64,
) -> u64
    ensures { Called b.old area.old caller (kernel.set_clearance clearance.now) [] result value.new b.new area.new [] }
{
    spread_answer(set_clearance(b, area, caller, clearance), value)
}

// Call 4: a new container.
pub fn fw_create_container(
    b: &mut [u8],
    area: &mut [u8],
    caller: u64,
    d: u64,
    label: &[u8],
    description: &[u8],
    mask: u64,
    quota: u64,
    value: &mut u64,
) -> u64
    ensures { Called b.old area.old caller
        (kernel.create_container d label.now description.now mask quota)
        [] result value.new b.new area.new [] }
{
    spread_answer(
        create_container(b, area, caller, d, label, description, mask, quota),
        value,
    )
}

// Call 5: a new segment, of length 0.
pub fn fw_create_segment(
    b: &mut [u8],
    area: &mut [u8],
    caller: u64,
    d: u64,
    label: &[u8],
    description: &[u8],
    quota: u64,
    value: &mut u64,
) -> u64
    ensures { Called b.old area.old caller
        (kernel.create_segment d label.now description.now quota)
        [] result value.new b.new area.new [] }
{
    spread_answer(
        create_segment(b, area, caller, d, label, description, quota),
        value,
    )
}

// Call 6: a new gate.
pub fn fw_create_gate(
    b: &mut [u8],
    area: &mut [u8],
    caller: u64,
    d: u64,
    label: &[u8],
    clearance: &[u8],
    number: u64,
    closure: &[u8],
    description: &[u8],
    value: &mut u64,
) -> u64
    ensures { Called b.old area.old caller
        (kernel.create_gate d label.now clearance.now number closure.now description.now)
        [] result value.new b.new area.new [] }
{
    spread_answer(
        create_gate(
            b,
            area,
            caller,
            d,
            label,
            clearance,
            number,
            closure,
            description,
        ),
        value,
    )
}

// Call 7: a new thread.
pub fn fw_create_thread(
    b: &mut [u8],
    area: &mut [u8],
    caller: u64,
    d: u64,
    label: &[u8],
    clearance: &[u8],
    description: &[u8],
    value: &mut u64,
) -> u64
    ensures { Called b.old area.old caller
        (kernel.create_thread d label.now clearance.now description.now)
        [] result value.new b.new area.new [] }
{
    spread_answer(
        create_thread(b, area, caller, d, label, clearance, description),
        value,
    )
}

// Call 8: a link cut, with all that hangs on it.
pub fn fw_unreference(
    b: &mut [u8],
    area: &mut [u8],
    caller: u64,
    d: u64,
    o: u64,
    value: &mut u64,
) -> u64
    ensures { Called b.old area.old caller (kernel.unreference d o) [] result value.new b.new area.new [] }
{
    spread_answer(unreference(b, area, caller, d, o), value)
}

// Call 9: the entry (d1, o) linked into d.
pub fn fw_link_segment(
    b: &mut [u8],
    area: &mut [u8],
    caller: u64,
    d1: u64,
    o: u64,
    d: u64,
    value: &mut u64,
) -> u64
    ensures { Called b.old area.old caller (kernel.link_segment d1 o d) [] result value.new b.new area.new [] }
{
    spread_answer(link_segment(b, area, caller, d1, o, d), value)
}

// Call 10: a segment's quota fixed.
pub fn fw_fix_quota(
    b: &mut [u8],
    area: &mut [u8],
    caller: u64,
    d: u64,
    o: u64,
    value: &mut u64,
) -> u64
    ensures { Called b.old area.old caller (kernel.fix_quota d o) [] result value.new b.new area.new [] }
{
    spread_answer(fix_quota(b, area, caller, d, o), value)
}

// Call 11: n units moved into (d, o), or back.
pub fn fw_move_quota(
    b: &mut [u8],
    area: &mut [u8],
    caller: u64,
    d: u64,
    o: u64,
    n: i64,
    value: &mut u64,
) -> u64
    ensures { Called b.old area.old caller (kernel.move_quota d o n) [] result value.new b.new area.new [] }
{
    spread_answer(move_quota(b, area, caller, d, o, n), value)
}

// Call 13: bytes written.
pub fn fw_write(
    b: &mut [u8],
    area: &mut [u8],
    caller: u64,
    d: u64,
    s: u64,
    k: u64,
    from: u64,
    count: u64,
    bytes: &[u8],
    value: &mut u64,
) -> u64
    ensures { Called b.old area.old caller (kernel.write d s k from count bytes.now) [] result value.new b.new area.new [] }
{
    spread_answer(write(b, area, caller, d, s, k, from, count, bytes), value)
}

// Call 14: a segment resized.
pub fn fw_resize(
    b: &mut [u8],
    area: &mut [u8],
    caller: u64,
    d: u64,
    s: u64,
    length: u64,
    value: &mut u64,
) -> u64
    ensures { Called b.old area.old caller (kernel.resize d s length) [] result value.new b.new area.new [] }
{
    spread_answer(resize(b, area, caller, d, s, length), value)
}

// Call 15: a gate entered; its closure bytes go into `out`.
pub fn fw_enter_gate(
    b: &mut [u8],
    area: &mut [u8],
    caller: u64,
    d: u64,
    g: u64,
    given: &[u8],
    cleared: &[u8],
    verify: &[u8],
    out: &mut [u8],
    value: &mut u64,
) -> u64
    ensures { Called b.old area.old caller
        (kernel.enter_gate d g given.now cleared.now verify.now (length out.old))
        out.old result value.new b.new area.new out.new }
{
    spread_answer(
        enter_gate(b, area, caller, d, g, given, cleared, verify, out),
        value,
    )
}

// Call 16: what an entry is, into `out`.
pub fn fw_look(
    b: &mut [u8],
    area: &mut [u8],
    caller: u64,
    d: u64,
    o: u64,
    out: &mut [u8],
    value: &mut u64,
) -> u64
    ensures { Called b.old area.old caller
        (kernel.look d o (length out.old))
        out.old result value.new b.new area.new out.new }
{
    spread_answer(look(b, area, caller, d, o, out), value)
}

// The place that is given for a part: 0 for an empty one.
fn place_given(place: usize, count: usize) -> u64
    ensures { result ≡ cond (eqb count 0) 0 place }
{
    if count == 0 {
        return 0;
    }
    place as u64
}

// Call 12: the part's place in the data area and its count; both are 0 for an empty part and on a refusal.
pub fn fw_read(
    b: &mut [u8],
    area: &mut [u8],
    caller: u64,
    d: u64,
    s: u64,
    k: u64,
    from: u64,
    count: u64,
    place: &mut u64,
    length: &mut u64,
    value: &mut u64,
) -> u64
    ensures { ReadAs b.old area.old caller d s k from count result value.new place.new length.new b.new area.new }
{
    match locate(b, area, caller, d, s, k, from, count) {
        Ok((p, n)) => {
            *value = 0;
            *place = place_given(p, n);
            *length = n as u64;
            0
        }
        Err(refused) => {
            *place = 0;
            *length = 0;
            spread_answer(Err(refused), value)
        }
    }
}
