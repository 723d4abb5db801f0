// What is seen from both ends of each join, over the summaries of a book: one search for all ends at one atom of one block.
ghost use Rattle.std.specs.Prelude.{[], ◌≡◌, ◌+◌, ◌*◌, ◌/◌, ◌≤◌, ◌<◌, length, get_or};
ghost use Rattle.assembly.specs.Placements.{most_placements};
ghost use Rattle.joining.specs.Small.{SmallCounts};
ghost use Rattle.summary.specs.Layout.{stored_fields};
ghost use Rattle.shelf.specs.Shelf.{summary_at, place_of};
ghost use Rattle.summaries.specs.Ready.{end_of, count_row, sight_of_row, core_at, seen_from, ReadyShelf, StepsKnown, Counted};
ghost use Rattle.summaries.specs.Ends.{home_of, IsEnd, Stepped, Known, Put, Nowhere, Unmarked};

use super::links::{Links, end_at, parent_of};
use assembly::PLACEMENTS;
use block::{DistanceRow, Indices, Vertex};
use reply::wide;
use shelf::{place_of, summary_at};
use sighted::Seen;
use summary::{fields, seen};

// The numbers of steps to the atoms that placements are joined to; what is counted from an atom, in the order of the fields, since an array of structs is not lent.
pub(crate) type StepRow = [u8; PLACEMENTS];

pub(crate) type CountRow = [u32; 8];

const EVENS: usize = 3;

// The placements of an assembly of middle size: equal ends of a larger one are counted before they are looked for.
pub(crate) const MORE: usize = 10;

pub(crate) fn row_of(v: Vertex) -> CountRow
    requires { SmallCounts v }
    ensures { result ≡ count_row v }
{
    [
        v.sum as u32,
        v.even as u32,
        v.odd as u32,
        v.evens as u32,
        v.odds as u32,
        v.ones as u32,
        v.twos as u32,
        v.farthest as u32,
    ]
}

fn sight_of(row: CountRow) -> Vertex
    ensures { result ≡ sight_of_row row }
{
    Vertex {
        sum: row[0] as u64,
        even: row[1] as u64,
        odd: row[2] as u64,
        evens: row[3] as u64,
        odds: row[4] as u64,
        ones: row[5] as u64,
        twos: row[6] as u64,
        farthest: row[7] as u64,
    }
}

pub(crate) fn core_at(counts: &[CountRow], e: usize) -> Vertex
    requires { e < length counts.now }
    ensures { result ≡ core_at counts.now e }
{
    sight_of(counts[e])
}

// The number of steps in row k to the atom that the placement at index z is joined to.
pub(crate) fn step_at(rows: &[StepRow], k: usize, z: usize) -> u64
    requires { (k < length rows.now) × (z < most_placements) }
    ensures { result ≡ get_or (get_or rows.now k []) z 0 }
{
    wide(rows[k][z])
}

// The fields of the block of an end, 256 times a block's number and one of its atoms; and what is seen from it.
pub(crate) fn fields_at(book: &[u8], x: usize) -> Indices
    ensures { result ≡ stored_fields (summary_at book.now (place_of book.now (x / 256))) }
{
    fields(summary_at(book, place_of(book, x / 256)))
}

fn seen_from(book: &[u8], x: usize) -> Seen
    ensures { result ≡ seen_from book.now x }
{
    seen(summary_at(book, place_of(book, x / 256)), x % 256)
}

// The number of the placement that has end e.
fn home_of(links: &Links, e: usize) -> usize
    requires { e < 2 * most_placements }
    ensures { result ≡ home_of links.now e }
{
    if e % 2 == 0 {
        return e / 2 + 1;
    }
    parent_of(links, e / 2)
}

// A row with the steps to the atoms of placement number `home` that placements are joined to, which another row says.
fn stepped(
    book: &[u8],
    links: &Links,
    count: usize,
    from: &DistanceRow,
    home: usize,
    old: StepRow,
) -> StepRow
    requires { ReadyShelf book.now links.now count × (1 ≤ home) }
    ensures { Stepped links.now count from.now home old result }
{
    let mut row = old;
    for z in home..count {
        if parent_of(links, z) == home {
            let site = end_at(links, 2 * z + 1) % 256;
            row[z] = from[site - 1];
        }
    }
    row
}

// Stores what is seen from x as end f, where that is end f.
fn put_end(
    book: &[u8],
    links: &Links,
    count: usize,
    x: usize,
    from: &DistanceRow,
    sight: CountRow,
    rows: &mut [StepRow],
    counts: &mut [CountRow],
    f: usize,
)
    requires { ReadyShelf book.now links.now count × IsEnd count f × (count ≤ length rows.old) × (2 * count ≤ length counts.old)
        × (from.now ≡ (seen_from book.now x).row) × (sight ≡ count_row (seen_from book.now x).counts) }
    ensures { Put book.now links.now count x f (f + 1) rows.old counts.old rows.new counts.new }
{
    if end_at(links, f) != x {
        return;
    }
    let k = f / 2;
    let old = rows[k];
    rows[k] = stepped(book, links, count, from, home_of(links, f), old);
    counts[f] = sight;
}

// And as every end from e to `to` that it is.
fn put_ends(
    book: &[u8],
    links: &Links,
    count: usize,
    x: usize,
    from: &DistanceRow,
    sight: CountRow,
    rows: &mut [StepRow],
    counts: &mut [CountRow],
    e: usize,
    to: usize,
)
    requires { ReadyShelf book.now links.now count × (2 ≤ e) × (e ≤ to) × (to ≤ 2 * count) × (count ≤ length rows.old) × (2 * count ≤ length counts.old)
        × (from.now ≡ (seen_from book.now x).row) × (sight ≡ count_row (seen_from book.now x).counts) }
    ensures { Put book.now links.now count x e to rows.old counts.old rows.new counts.new }
{
    for f in e..to {
        put_end(book, links, count, x, from, sight, rows, counts, f);
    }
}

fn one_if_same(a: u32, b: u32) -> u32
    ensures { (result ≤ 1) × (result ≡ 0 → a ≡ b → ⊥) }
{
    if a == b { 1 } else { 0 }
}

// How many of the ends from e to f are x, counted without a branch.
fn again(links: &Links, x: u32, e: usize, f: usize) -> u32
    requires { f ≤ 2 * most_placements }
    ensures { result ≡ 0 → Nowhere links.now x e f }
{
    let mut total: u32 = 0;
    for g in e..f {
        total += one_if_same(links[g], x);
    }
    total
}

// From where on no end is the same as end e: behind it in a large assembly that has no other.
fn none_from(links: &Links, count: usize, e: usize) -> usize
    requires { (count ≤ most_placements) × IsEnd count e }
    ensures { (e < result) × (result ≤ 2 * count) × Nowhere links.now (end_of links.now e) result (2 * count) }
{
    if count > MORE && again(links, links[e], e + 1, 2 * count) == 0 {
        return e + 1;
    }
    2 * count
}

// Stores what is seen from end e, for the later ends at the same atom too, unless that is done: an end that is stored counts its own atom.
fn see_end(
    book: &[u8],
    links: &Links,
    count: usize,
    rows: &mut [StepRow],
    counts: &mut [CountRow],
    e: usize,
)
    requires { ReadyShelf book.now links.now count × IsEnd count e × (count ≤ length rows.old) × (2 * count ≤ length counts.old)
        × Known book.now links.now count rows.old counts.old e }
    ensures { Known book.now links.now count rows.new counts.new (e + 1) }
{
    let done = counts[e];
    if done[EVENS] != 0 {
        return;
    }
    let x = end_at(links, e);
    let to = none_from(links, count, e);
    let s = seen_from(book, x);
    let from = s.row;
    put_ends(
        book,
        links,
        count,
        x,
        &from,
        row_of(s.counts),
        rows,
        counts,
        e,
        to,
    );
}

// At 2 k what is counted from the own atom of the placement at index k, at 2 k + 1 what is counted from its parent's; in row k the steps from both.
pub(crate) fn see_ends(
    book: &[u8],
    links: &Links,
    count: usize,
    rows: &mut [StepRow],
    counts: &mut [CountRow],
)
    requires { ReadyShelf book.now links.now count × (count ≤ length rows.old) × (2 * count ≤ length counts.old) × Unmarked counts.old }
    ensures rows { StepsKnown book.now links.now rows.new count }
    ensures counts { Counted book.now links.now counts.new count 1 }
{
    for e in 2..2 * count {
        see_end(book, links, count, rows, counts, e);
    }
}
