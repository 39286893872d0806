// The day of docs/RULES.md 10.2, run on the kernel: one line a call, with its number, caller, call, answer and value.
// Where a line can't be written the day goes on all the same, and the first such error is answered at its end.
#![tactic(auto)]

ghost use Rattle.std.specs.Prelude.{◌≡◌, length};
ghost use Rattle.rules.specs.Kernel.{started};
ghost use Rattle.tables.specs.Layout.{size};
ghost use Rattle.book.specs.Enact.{area_size};
ghost use Rattle.histories.specs.Areas.{After};
ghost use Rattle.grantday.specs.Steps.{Plays, granted, peopled, looked, crowded, kept, freed, day};

use book::sound::AREA_LEN;
use calls::Answer;
use calls::create_category::create_category;
use calls::create_container::create_container;
use calls::create_segment::create_segment;
use calls::create_thread::create_thread;
use calls::move_quota::move_quota;
use calls::read::read;
use calls::resize::resize;
use calls::set_label::set_label;
use calls::start::start;
use calls::unreference::unreference;
use labels::Label;
use labels::bytes::into_bytes;
use labels::in_place::LABEL_SIZE;
use labels::pair::with_pair;
use std::io;
use tables::{BOOK_LEN, TEXT_SIZE};

fn print_line(
    rt: &impl Print,
    number: u64,
    caller: u64,
    call: u64,
    answer: u64,
    value: u64,
) -> io::Result<()> {
    println!(rt; "{number} {caller} {call} {answer} {value}")
}

fn print(rt: &impl Print, number: u64, caller: u64, call: u64, answer: Answer) -> io::Result<()> {
    match answer {
        Ok(value) => print_line(rt, number, caller, call, 0, value),
        Err(r) => print_line(rt, number, caller, call, u64::from(r), 0),
    }
}

// What the day's calls are lent: labels with level 1, with level 2 and with level 3 at the category, and a text of zeros.
#[derive(Clone, Copy)]
struct Lent<'a> {
    one: &'a [u8],
    two: &'a [u8],
    tainted: &'a [u8],
    text: &'a [u8],
}

// Calls 102 to 104: a category, and a container with a segment in it.
fn grants(rt: &impl Print, b: &mut [u8], area: &mut [u8], lent: Lent) -> io::Result<()>
    ensures { Plays (λ h. granted h lent.entry.tainted.now lent.entry.text.now) b.old area.old b.new area.new }
{
    let first = print(rt, 102, 101, 1, create_category(b, area, 101));
    let second = print(
        rt,
        103,
        101,
        4,
        create_container(b, area, 101, 100, lent.tainted, lent.text, 0, 20),
    );
    let third = print(
        rt,
        104,
        101,
        5,
        create_segment(b, area, 101, 103, lent.tainted, lent.text, 0),
    );
    first.and(second).and(third)
}

// Calls 105 to 107: the segment grows as far as its quota, and the neighbour gets its thread.
fn grows(rt: &impl Print, b: &mut [u8], area: &mut [u8], lent: Lent) -> io::Result<()>
    ensures { Plays (λ h. peopled h lent.entry.one.now lent.entry.two.now lent.entry.text.now) b.old area.old b.new area.new }
{
    let first = print(rt, 105, 101, 14, resize(b, area, 101, 103, 104, 256));
    let second = print(rt, 106, 101, 14, resize(b, area, 101, 103, 104, 257));
    let third = print(
        rt,
        107,
        101,
        7,
        create_thread(b, area, 101, 100, lent.one, lent.two, lent.text),
    );
    first.and(second).and(third)
}

// Call 108: the neighbour looks.
fn reads(rt: &impl Print, b: &mut [u8], area: &[u8]) -> io::Result<()>
    ensures { Plays (λ h. looked h) b.old area.now b.new area.now }
{
    let mut answer: u64 = 0;
    let mut value: u64 = 0;
    read(b, area, 107, 103, 104, 0, 0, 1, &mut answer, &mut value);
    print_line(rt, 108, 107, 12, answer, value)
}

// Calls 109 to 111: it raises its label, and takes what it can get.
fn crowds(rt: &impl Print, b: &mut [u8], area: &mut [u8], lent: Lent) -> io::Result<()>
    ensures { Plays (λ h. crowded h lent.entry.one.now lent.entry.tainted.now lent.entry.text.now) b.old area.old b.new area.new }
{
    let first = print(rt, 109, 107, 2, set_label(b, area, 107, lent.tainted));
    let second = print(
        rt,
        110,
        107,
        5,
        create_segment(b, area, 107, 100, lent.one, lent.text, 234),
    );
    let third = print(
        rt,
        111,
        107,
        5,
        create_segment(b, area, 107, 100, lent.one, lent.text, 233),
    );
    first.and(second).and(third)
}

// Calls 112 to 114: the container still has what it was granted, and no more.
fn keeps(rt: &impl Print, b: &mut [u8], area: &mut [u8], lent: Lent) -> io::Result<()>
    ensures { Plays (λ h. kept h lent.entry.tainted.now lent.entry.text.now) b.old area.old b.new area.new }
{
    let first = print(rt, 112, 101, 11, move_quota(b, area, 101, 100, 103, 1));
    let second = print(
        rt,
        113,
        101,
        5,
        create_segment(b, area, 101, 103, lent.tainted, lent.text, 14),
    );
    let third = print(
        rt,
        114,
        101,
        5,
        create_segment(b, area, 101, 103, lent.tainted, lent.text, 1),
    );
    first.and(second).and(third)
}

// Calls 115 to 117: the neighbour's segment goes, and there is room again.
fn frees(rt: &impl Print, b: &mut [u8], area: &mut [u8]) -> io::Result<()>
    ensures { Plays (λ h. freed h) b.old area.old b.new area.new }
{
    let first = print(rt, 115, 101, 8, unreference(b, area, 101, 100, 111));
    let second = print(rt, 116, 111, 1, create_category(b, area, 111));
    let third = print(rt, 117, 101, 11, move_quota(b, area, 101, 100, 103, 1));
    first.and(second).and(third)
}

// The first half of the day, and the second.
fn morning(rt: &impl Print, b: &mut [u8], area: &mut [u8], lent: Lent) -> io::Result<()>
    requires { (length b.old ≡ size) × (length area.old ≡ area_size) }
    ensures { After (peopled (granted (started 100) lent.entry.tainted.now lent.entry.text.now) lent.entry.one.now lent.entry.two.now lent.entry.text.now) b.new area.new }
{
    // Both areas have their lengths, so Start cannot refuse.
    let _ = start(b, area, 100);
    let granted = grants(rt, b, area, lent);
    let grown = grows(rt, b, area, lent);
    granted.and(grown)
}

fn evening(rt: &impl Print, b: &mut [u8], area: &mut [u8], lent: Lent) -> io::Result<()>
    ensures { Plays (λ h. freed (kept (crowded h lent.entry.one.now lent.entry.tainted.now lent.entry.text.now) lent.entry.tainted.now lent.entry.text.now)) b.old
        area.old b.new area.new }
{
    let crowded = crowds(rt, b, area, lent);
    let kept = keeps(rt, b, area, lent);
    let freed = frees(rt, b, area);
    crowded.and(kept).and(freed)
}

fn run(rt: &impl Print, b: &mut [u8], area: &mut [u8], lent: Lent) -> io::Result<()>
    requires { (length b.old ≡ size) × (length area.old ≡ area_size) }
    ensures { After (day lent.entry.one.now lent.entry.two.now lent.entry.tainted.now lent.entry.text.now) b.new area.new }
{
    let first = morning(rt, b, area, lent);
    let noon = reads(rt, b, area);
    let second = evening(rt, b, area, lent);
    first.and(noon).and(second)
}

fn main(rt: HostRuntime) -> io::Result<()> {
    let mut book = [0u8; BOOK_LEN];
    let mut area = [0u8; AREA_LEN];
    let text = [0u8; TEXT_SIZE];
    let mut one = [0u8; LABEL_SIZE];
    let mut two = [0u8; LABEL_SIZE];
    let mut tainted = [0u8; LABEL_SIZE];
    into_bytes(Label::of_default(Label::LEVEL1), &mut one);
    into_bytes(Label::of_default(Label::LEVEL2), &mut two);
    let plain = Label::of_default(Label::LEVEL1);
    let label = with_pair(plain, 102, Label::LEVEL3).unwrap_or(plain);
    into_bytes(label, &mut tainted);
    let lent = Lent {
        one: &one,
        two: &two,
        tainted: &tainted,
        text: &text,
    };
    run(&rt, &mut book, &mut area, lent)
}
