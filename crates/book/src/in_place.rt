// A row's label and clearance where the book holds them, for all that only looks at them: their bytes, and none more.
ghost use Rattle.std.specs.Prelude.{◌≡◌, ◌*◌, length};
ghost use Rattle.labels.specs.Core.{meant};
ghost use Rattle.tables.specs.Layout.{view};
ghost use Rattle.book.specs.Book.{label_of, clearance_of};

use labels::{LabelRef, WORDS};
use tables::{Book, CLEAR_DEFAULT, CLEAR_WORDS, LABEL_DEFAULT, LABEL_WORDS, Row};

// Two functions: one over any two tables would have to ask of these what the constants show.

#[tactic(auto, using(labels::specs::Core::InPlace::meant_is))]
pub fn label_of(b: &Book, r: Row) -> LabelRef
    ensures means { meant result ≡ label_of (view b.now) r }
    ensures exact { length result.words.now ≡ length (meant result).words * 8 }
{
    LabelRef {
        default: u64::from(LABEL_DEFAULT.get(b, r)),
        words: LABEL_WORDS.words(b, usize::from(r) * WORDS, WORDS),
    }
}

#[tactic(auto, using(labels::specs::Core::InPlace::meant_is))]
pub fn clearance_of(b: &Book, r: Row) -> LabelRef
    ensures means { meant result ≡ clearance_of (view b.now) r }
    ensures exact { length result.words.now ≡ length (meant result).words * 8 }
{
    LabelRef {
        default: u64::from(CLEAR_DEFAULT.get(b, r)),
        words: CLEAR_WORDS.words(b, usize::from(r) * WORDS, WORDS),
    }
}
