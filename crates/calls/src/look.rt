// Call 16: a look at an object, whose kind goes as its code, the byte that is put out.
ghost use Rattle.std.specs.Prelude.{◌≡◌, cond, ◌+◌, ◌*◌, ◌<◌, length};
ghost use Rattle.labels.specs.Core.{word_count, meant};
ghost use Rattle.rules.specs.Kernel.{look, look_size};
ghost use Rattle.tables.specs.Layout.{view};
ghost use Rattle.book.specs.Book.{label_of};
ghost use Rattle.calls.specs.Look.{open_look, shown_b, shown_bytes, hidden_bytes, look_at, LookJudged};
ghost use Rattle.calls.specs.Outcome.{DoneWith};

use super::begin::begin;
use super::leave::leave;
use super::lookup::{open_container, open_entry};
use super::{Answer, Refusal};
use book::alter::move_on;
use book::area::clear_all;
use book::find::{description_into, kind_of};
use book::in_place::label_of;
use book::kinds::Kind;
use labels::compare::may_read;
use labels::in_place::put_words;
use labels::{LabelRef, WORDS};
use tables::{Book, Row, TEXT_SIZE, array_in_mut};

// The bytes of an output: the description, eight bytes, and the words of a label.
pub const LOOK_SIZE: usize = TEXT_SIZE + 8 + WORDS * 8;

// RULES 8.16: "5 unless D is a container that T may read, and O is D itself or is linked in D; no other call takes (D, D) for an entry."
#[tactic(auto, unfolding(crate::specs::Look::open_look))]
fn open_look(b: &Book, t: Row, d: u64, o: u64) -> Result<Row, Refusal>
    ensures { result ≡ open_look (view b.now) t d o }
{
    if o == d {
        return open_container(b, t, d);
    }
    let place = open_entry(b, t, d, o)?;
    Ok(place.object)
}

#[tactic(auto, using(crate::specs::Laws::Look::ways_out))]
fn judge(
    b: &[u8],
    area: &[u8],
    caller: u64,
    d: u64,
    o: u64,
    n: usize,
) -> Result<(Row, Row), Refusal>
    ensures { LookJudged b.now area.now caller d o n result }
{
    let (book, t) = begin(b, area, caller)?;
    if n != LOOK_SIZE {
        return Err(Refusal::BadArgument);
    }
    let object = open_look(book, t, d, o)?;
    Ok((t, object))
}

// ---- what is put out

// RULES 8.16: "If O is a thread that T may not read, all bytes after the kind's code are 0."
fn shown(code: u8, mine: LabelRef, theirs: LabelRef) -> bool
    ensures { result ≡ shown_b code (meant mine.entry) (meant theirs.entry) }
{
    code != u8::from(Kind::Thread) || may_read(mine, theirs)
}

// The caller's buffer is a slice that C lends, and what is put out is the part behind the description: its length is said of it by these
// three, since to make an array of it each would need a case that cannot occur.

// Zeros in place of a label.
fn put_hidden(out: &mut [u8], code: u8)
    requires { length out.old ≡ 8 + word_count * 8 }
    ensures { out.new ≡ hidden_bytes code }
{
    clear_all(out);
    out[0] = code;
}

#[tactic(auto, using(labels::specs::Core::InPlace::meant_default))]
fn put_shown(out: &mut [u8], code: u8, label: LabelRef)
    requires { (length out.old ≡ 8 + word_count * 8) × ((meant label).default < 256) × (length (meant label).words ≡ word_count) }
    ensures { out.new ≡ shown_bytes code (meant label.entry) }
{
    let (head, words) = out.split_at_mut(8);
    head.copy_from_slice(&[code, 1, label.default as u8, 0, 0, 0, 0, 0]);
    put_words(words, 0, label);
}

// The kind's code and the label, shown or not.
fn put_label(out: &mut [u8], code: u8, mine: LabelRef, theirs: LabelRef)
    requires { (length out.old ≡ 8 + word_count * 8) × ((meant theirs).default < 256) × (length (meant theirs).words ≡ word_count) }
    ensures { out.new ≡ cond (shown_b code (meant mine.entry) (meant theirs.entry)) (shown_bytes code (meant theirs.entry)) (hidden_bytes code) }
{
    if !shown(code, mine, theirs) {
        put_hidden(out, code);
        return;
    }
    put_shown(out, code, theirs);
}

// What the thread at row t is shown of the object at row r.
#[tactic(auto, using(book::specs::Laws::Shapes::label_long))]
fn look_into(b: &Book, t: Row, r: Row, out: &mut [u8])
    requires { (length out.old ≡ look_size) × ((label_of (view b.now) r).default < 256) }
    ensures { out.new ≡ look_at (view b.now) (label_of (view b.now) t) r }
{
    let mine = label_of(b, t);
    let theirs = label_of(b, r);
    let code = kind_of(b, r);
    let (text, rest) = out.split_at_mut(TEXT_SIZE);
    description_into(b, r, text);
    put_label(rest, code, mine, theirs);
}

#[tactic(auto, using(crate::specs::Laws::Leave::leavable, crate::specs::Laws::Prelude::book_long))]
pub fn look(b: &mut [u8], area: &mut [u8], caller: u64, d: u64, o: u64, out: &mut [u8]) -> Answer
    ensures { DoneWith b.old area.old caller (look d o (length out.old))
        out.old result b.new area.new out.new }
{
    let n = out.len();
    match judge(b, area, caller, d, o, n) {
        Ok((t, r)) => {
            let book = array_in_mut(b);
            look_into(book, t, r, out);
            move_on(book);
            Ok(0)
        }
        Err(r) => leave(b, r),
    }
}
