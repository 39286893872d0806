// Whether the links are as in a sound book, and every row is linked and charged as it should be. A row's
// kind is its code here: in a book that is not sound it may be no kind's.
ghost use Rattle.std.specs.Prelude.{◌≡◌, true, not, ℕ, ◌+◌, ◌<◌, get_or, replicate};
ghost use Rattle.tables.specs.Layout.{view, row_count, link_count};
ghost use Rattle.book.specs.Book.{mark_of};
ghost use Rattle.book.specs.Sound.{links_to, charged_to};
ghost use Rattle.book.specs.Test.{every, mask_n, ends_b, link_b, same_b, once_b, tied_n, fits_n, tie_b, rows_b, links_b};
ghost use Rattle.book.specs.Tally.{links_below, tally_b, Tallied};

use super::find::kind_at;
use super::kinds::{FREE, Kind};
use super::limits::ROOT_QUOTA;
use super::numbers::{blocks_of, row_of};
use super::sound_rows::id_absent;
use tables::{Book, FIXED, ID, KIND, LEN, LINK_FROM, LINK_TO, LINKS, MASK, QUOTA, ROWS, Row, root};

// ---- where a link leads

// The masks of a link's container and object, the latter of this kind.
#[tactic(auto, using(crate::specs::Laws::Kinds::kind_eq_is), unfolding(crate::specs::Test::mask_n))]
fn mask(outer: u8, code: u8, inner: u8) -> bool
    ensures { result ≡ mask_n outer code inner }
{
    Kind::with_code(code) != Some(Kind::Container) || inner | outer == inner
}

#[tactic(auto, using(crate::specs::Laws::Kinds::kind_eq_is), unfolding(crate::specs::Test::ends_b))]
fn ends_ok(b: &Book, l: usize) -> bool
    requires { (l < link_count) × (mark_of (view b.now) l ≡ 0 → ⊥) }
    ensures { result ≡ ends_b (view b.now) l }
{
    let Ok(from) = Row::try_from(LINK_FROM.get(b, l) - 1) else {
        return false;
    };
    let Ok(to) = Row::try_from(LINK_TO.get(b, l)) else {
        return false;
    };
    let code = KIND.get(b, to);
    kind_at(b, from) == Some(Kind::Container)
        && code != FREE
        && mask(MASK.get(b, from), code, MASK.get(b, to))
}

#[tactic(auto, unfolding(crate::specs::Test::link_b))]
fn link_ok(b: &Book, l: usize) -> bool
    requires { l < link_count }
    ensures { result ≡ link_b (view b.now) l }
{
    LINK_FROM.get(b, l) == 0 || ends_ok(b, l)
}

// ---- no link twice

// Whether links l and m are the same.
#[tactic(auto, unfolding(crate::specs::Test::same_b))]
fn same(b: &Book, l: usize, m: usize) -> bool
    requires { (l < link_count) × (m < link_count) }
    ensures { result ≡ same_b (view b.now) l m }
{
    LINK_TO.get(b, l) == LINK_TO.get(b, m) && LINK_FROM.get(b, l) == LINK_FROM.get(b, m)
}

fn link_new(b: &Book, l: usize) -> bool
    requires { l < link_count }
    ensures { result ≡ every l (λ m. not (same_b (view b.now) l m)) }
{
    (0..l).all(|m| !same(b, l, m))
}

// Whether no link below l is the same, where counts has what leads to each row from there: an object to which none leads needs no look at them.
#[tactic(auto, using(crate::specs::Laws::Tally::link_to_low), unfolding(crate::specs::Test::once_b))]
fn once(b: &Book, counts: &[u8; ROWS], l: usize) -> bool
    requires { (l < link_count) × (link_b (view b.now) l ≡ true) × ((r : ℕ) → r < row_count → get_or counts.now r 0 ≡ links_below (view b.now) l r) }
    ensures { result ≡ once_b (view b.now) (links_to (view b.now)) l }
{
    if LINK_FROM.get(b, l) == 0 {
        return true;
    }
    let to = usize::from(LINK_TO.get(b, l));
    if counts[to] == 0 {
        return true;
    }
    link_new(b, l)
}

// ---- one pass over the links

// Counts link l at its object's row, and charges its object's quota at its container's.
#[tactic(auto, using(crate::specs::Laws::Tally::link_to_low, crate::specs::Laws::Tally::link_quota))]
fn add_link(b: &Book, l: usize, counts: &mut [u8; ROWS], charges: &mut [u16; ROWS])
    requires { (l < link_count) × (rows_b (view b.now) ≡ true) × (link_b (view b.now) l ≡ true) × Tallied (view b.now) l counts.old charges.old }
    ensures { Tallied (view b.now) (l + 1) counts.new charges.new }
{
    let mark = LINK_FROM.get(b, l);
    if mark == 0 {
        return;
    }
    let from = row_of(mark);
    let to = usize::from(LINK_TO.get(b, l));
    counts[to] += 1;
    charges[usize::from(from)] += QUOTA.get(b, to as Row);
}

// Whether every link leads from a container to an object and none occurs twice; if so, what leads to each row and what is charged to it.
fn tally(b: &Book, counts: &mut [u8; ROWS], charges: &mut [u16; ROWS]) -> bool
    requires { (rows_b (view b.now) ≡ true) × (counts.old ≡ replicate row_count 0) × (charges.old ≡ replicate row_count 0) }
    ensures { (result ≡ tally_b (view b.now)) × (result ≡ true → Tallied (view b.now) link_count counts.new charges.new) }
{
    for l in 0..LINKS {
        if !link_ok(b, l) {
            return false;
        }
        if !once(b, counts, l) {
            return false;
        }
        add_link(b, l, counts, charges);
    }
    true
}

// ---- how a row is linked

#[tactic(auto, using(crate::specs::Laws::Kinds::kind_eq_is), unfolding(crate::specs::Test::tied_n))]
fn tied(is_root: bool, code: u8, fixed: u8, q: u16, n: u8) -> bool
    ensures { result ≡ tied_n is_root code fixed q n }
{
    let kind = Kind::with_code(code);
    if is_root {
        return kind == Some(Kind::Container) && q == ROOT_QUOTA && n == 0;
    }
    if kind == Some(Kind::Segment) && fixed == 1 {
        return 1 <= n;
    }
    n == 1
}

#[tactic(auto, using(crate::specs::Laws::Judged::less_is), unfolding(crate::specs::Kinds::kind_with, crate::specs::Test::fits_n, rules::specs::Kernel::units))]
fn fits(code: u8, q: u16, n: u16, u: u16) -> bool
    ensures { result ≡ fits_n code q n u }
{
    match Kind::with_code(code) {
        Some(Kind::Container) => u < q,
        Some(Kind::Segment) => blocks_of(n) < usize::from(q),
        _ => true,
    }
}

// Row r, to which n links lead and in which quotas of u are linked.
#[tactic(auto, unfolding(crate::specs::Test::tie_b))]
fn tie_ok(b: &Book, r: Row, n: u8, u: u16) -> bool
    ensures { result ≡ tie_b (view b.now) r n u }
{
    let code = KIND.get(b, r);
    if code == FREE {
        return true;
    }
    let q = QUOTA.get(b, r);
    let is_root = ID.get(b, r) == root(b);
    tied(is_root, code, FIXED.get(b, r), q, n) && fits(code, q, LEN.get(b, r), u)
}

fn ties_ok(b: &Book, counts: &[u8; ROWS], charges: &[u16; ROWS]) -> bool
    requires { Tallied (view b.now) link_count counts.now charges.now }
    ensures { result ≡ every row_count (λ r. tie_b (view b.now) r (links_to (view b.now) r) (charged_to (view b.now) r)) }
{
    (0..ROWS).all(|r| tie_ok(b, r as Row, counts[r], charges[r]))
}

// ---- all of it

pub fn links_ok(b: &Book) -> bool
    requires { (rows_b (view b.now) ≡ true) }
    ensures { result ≡ links_b (view b.now) }
{
    // Two arrays, since one of pairs would take 256 bytes of stack more.
    let mut counts = [0u8; ROWS];
    let mut charges = [0u16; ROWS];
    tally(b, &mut counts, &mut charges)
        && ties_ok(b, &counts, &charges)
        && !id_absent(b, ROWS, root(b))
}
