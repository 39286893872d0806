// What every call asks first: whether the areas are good (1), whether the numbers have ended (2), and whether the caller is a live thread (3).
ghost use Rattle.calls.specs.Begun.{BegunAs};

use super::Refusal;
use book::find::{next_of, thread_of};
use book::limits::LAST_NUMBER;
use book::sound::sound_book;
use tables::{Book, Row};

#[tactic(auto, using(crate::specs::Laws::Begun::ways_out))]
pub fn begin<'a>(b: &'a [u8], area: &[u8], caller: u64) -> Result<(&'a Book, Row), Refusal>
    ensures { BegunAs b.now area.now caller result }
{
    let book = sound_book(b, area).ok_or(Refusal::BadArea)?;
    if LAST_NUMBER < next_of(book) {
        return Err(Refusal::NumbersEnded);
    }
    let t = thread_of(book, caller).ok_or(Refusal::NoCaller)?;
    Ok((book, t))
}
