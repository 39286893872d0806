// Answers cases for the label rules, a line each. A case is 204 bytes: the operation, a number n in eight bytes, and the
// labels X, Y and Z in 65 bytes each. The operations are in hosts/README.md.
#![tactic(auto)]

ghost use Rattle.std.specs.Prelude.{◌≡◌, ◌+◌, ◌*◌, ◌≤◌, ◌<◌, length, IfOk};
ghost use Rattle.labels.specs.Core.{meant};
ghost use Rattle.label_vectors.specs.Asked.{asked, op_of};
ghost use Rattle.label_vectors.specs.Text.{put};
ghost use Rattle.label_vectors.specs.Line.{pair_text, answer_text, line_text, lines_text};

use edge::read_full;
use labels::number::Number;
use labels::{Label, LabelRef, Rule, bytes, compare, form, in_place, pair, words};
use std::io::{Read, Write};

mod text; // text.rt: text in a buffer

// How many bytes a case has.
const CASE: usize = 204;

// What is asked of the labels X, Y and Z: the rules that look at X and Y, those that look at all three, and whether X is well formed.
#[derive(Clone, Copy)]
enum Question {
    Two(Rule),
    Three(Rule),
    MayRead,
    MayWrite,
    WellFormed { star: bool },
}

// What a case is for.
#[derive(Clone, Copy)]
enum Op {
    Ask(Question),
    // the label with a pair more
    Pair,
    // the level at a category
    Level,
}

// By the numbers in hosts/README.md; 8 and every other asks for a label with no star.
impl From<u8> for Op {
    fn from(code: u8) -> Op
        ensures { result ≡ op_of code }
    {
        match code {
            0 => Op::Ask(Question::Two(Rule::Flows)),
            1 => Op::Ask(Question::Two(Rule::FlowsHigh)),
            2 => Op::Ask(Question::Three(Rule::FloorFlows)),
            3 => Op::Ask(Question::Three(Rule::FlowsJoin)),
            4 => Op::Ask(Question::Three(Rule::FlowsJoinHigh)),
            5 => Op::Ask(Question::MayRead),
            6 => Op::Ask(Question::MayWrite),
            7 => Op::Ask(Question::WellFormed { star: true }),
            9 => Op::Pair,
            10 => Op::Level,
            _ => Op::Ask(Question::WellFormed { star: false }),
        }
    }
}

fn asked(what: Question, n: u64, x: LabelRef, y: LabelRef, z: LabelRef) -> bool
    ensures { result ≡ asked what n (meant x.entry) (meant y.entry) (meant z.entry) }
{
    match what {
        Question::Two(rule) => compare::compare_two(rule, x, y),
        Question::Three(rule) => compare::compare(rule, x, y, z),
        Question::MayRead => compare::may_read(x, y),
        Question::MayWrite => compare::may_write(x, y),
        Question::WellFormed { star } => form::well_formed(x, n, star),
    }
}

// The label with the pair whose word is `word`, in hexadecimal, or `full`.
#[tactic(auto, using(crate::specs::Line::Laws::pair_full, crate::specs::Line::Laws::pair_spelt))]
fn put_pair(out: &mut [u8], at: usize, x: Label, word: u64) -> usize
    requires { at + 130 ≤ length out.old }
    ensures { (result ≡ at + length (pair_text x word)) × (out.new ≡ put out.old at (pair_text x word)) }
{
    match pair::with_pair(x, words::category(word), words::code(word)) {
        None => text::copy(out, at, b"full"),
        Some(paired) => {
            let mut spelt = [0u8; in_place::LABEL_SIZE];
            bytes::into_bytes(paired, &mut spelt);
            text::hex(out, at, &spelt)
        }
    }
}

// The answer to a case.
#[tactic(auto, using(crate::specs::Line::Laws::answers))]
fn put_answer(out: &mut [u8], at: usize, case: &[u8]) -> usize
    requires { (at + 130 ≤ length out.old) × (length case.now ≡ 204) }
    ensures { (result ≡ at + length (answer_text case.now)) × (out.new ≡ put out.old at (answer_text case.now)) }
{
    let n: u64 = Number::get(case, 1);
    let x = in_place::from_bytes(&case[9..74]);
    match Op::from(case[0]) {
        Op::Ask(what) => {
            let y = in_place::from_bytes(&case[74..139]);
            let z = in_place::from_bytes(&case[139..204]);
            if asked(what, n, x, y, z) {
                text::copy(out, at, b"1")
            } else {
                text::copy(out, at, b"0")
            }
        }
        Op::Pair => put_pair(out, at, in_place::value(x), n),
        Op::Level => text::decimal(out, at, compare::level(x, n)),
    }
}

// The line of the case with this index.
#[tactic(auto, using(crate::specs::Text::Laws::decimal_length, crate::specs::Line::Laws::answer_length))]
fn put_line(out: &mut [u8], at: usize, index: u64, case: &[u8]) -> usize
    requires { (at + 152 ≤ length out.old) × (length case.now ≡ 204) }
    ensures { (result ≡ at + length (line_text index case.now)) × (out.new ≡ put out.old at (line_text index case.now)) }
{
    let indexed = text::decimal(out, at, index);
    let spaced = text::copy(out, indexed, b" ");
    let answered = put_answer(out, spaced, case);
    text::copy(out, answered, b"\n")
}

// The lines of `count` cases, the first of which has the index `first`.
fn put_lines(out: &mut [u8], first: u64, cases: &[u8], count: usize) -> usize
    requires { (count * 152 ≤ length out.old) × (count * 204 ≤ length cases.now) × (first + count < 18446744073709551616) }
    ensures { (result ≡ length (lines_text count first cases.now)) × (out.new ≡ put out.old 0 (lines_text count first cases.now)) }
{
    let mut at = 0;
    for i in 0..count {
        let start = i * CASE;
        at = put_line(out, at, first + i as u64, &cases[start..start + CASE]);
    }
    at
}

// Reads up to 300 cases and writes their lines; answers how many there were. The only error is that of a read or a write.
fn turn(input: &mut impl Read, output: &mut impl Write, first: u64) -> std::io::Result<u64>
    requires { first < 9223372036854775808 }
    ensures { IfOk result (λ n. n ≤ 300) }
{
    // an array for all cases and one for all lines, since nothing here allocates
    let mut cases = [0u8; 61200];
    let mut out = [0u8; 45600];
    let got = read_full(input, &mut cases)?;
    let count = got / CASE;
    let used = put_lines(&mut out, first, &cases, count);
    output.write_all(&out[..used])?;
    Ok(count as u64)
}

// A proved loop has to end, and nothing says that the input does: so there are so many turns, more than any run takes.
fn main(rt: HostRuntime) -> std::io::Result<()> {
    let mut input = rt.stdin();
    let mut output = rt.stdout();
    let mut index = 0;
    for _ in 0..4294967296u64 {
        let count = turn(&mut input, &mut output, index)?;
        if count == 0 {
            break;
        }
        index += count;
    }
    Ok(())
}
