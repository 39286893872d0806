// The lookups of calls 4 to 16: a container that the caller may read, and an entry of one. Nothing found is refusal 5.
ghost use Rattle.std.specs.Prelude.{◌≡◌};
ghost use Rattle.tables.specs.Layout.{view};
ghost use Rattle.calls.specs.Lookup.{open_container, open_entry};

use super::Refusal;
use book::find::{Entry, container_of, entry_of};
use book::in_place::label_of;
use labels::compare::may_read;
use tables::{Book, Row};

// The row of the container d, if the thread at row t may read it.
#[tactic(auto, unfolding(crate::specs::Lookup::open_container))]
pub fn open_container(b: &Book, t: Row, d: u64) -> Result<Row, Refusal>
    ensures { result ≡ open_container (view b.now) t d }
{
    let container = container_of(b, d).ok_or(Refusal::NoEntry)?;
    if !may_read(label_of(b, t), label_of(b, container)) {
        return Err(Refusal::NoEntry);
    }
    Ok(container)
}

// The place of the object o in the container d, if the thread at row t may read the container.
#[tactic(auto, using(crate::specs::Laws::Lookup::ways_out))]
pub fn open_entry(b: &Book, t: Row, d: u64, o: u64) -> Result<Entry, Refusal>
    ensures { result ≡ open_entry (view b.now) t d o }
{
    let entry = entry_of(b, d, o).ok_or(Refusal::NoEntry)?;
    if !may_read(label_of(b, t), label_of(b, entry.container)) {
        return Err(Refusal::NoEntry);
    }
    Ok(entry)
}
