// A book of summaries, one behind the other: the place of a block's number, and what is refused of an assembly over them.
#![tactic(auto)]

ghost use Rattle.std.specs.Prelude.{◌≡◌, ◌*◌, ◌<◌};
ghost use Rattle.records.specs.Bytes.{le16, PartOf};
ghost use Rattle.assembly.specs.Placements.{placement_at, atom_site, fault, shelf_reply};
ghost use Rattle.summary.specs.Layout.{summary_bytes};
ghost use Rattle.shelf.specs.Shelf.{summary_at, places_in, place_of, sites_in, shelf_in};
ghost use Rattle.reply.specs.Read.{as_result};

use assembly::{JoinSite, PLACEMENTS, first_fault, join_fault, parent_fault, placement_at};
use records::{le16_at, part};
use reply::{Refusal, Rule, is_outside, wide};
use summary::{SUMMARY, atoms, ends};

// The summary at a place.
pub fn summary_at(book: &[u8], i: usize) -> &[u8]
    ensures { PartOf book.entry (summary_bytes * i) summary_bytes result }
{
    if book.len() / SUMMARY < i {
        return part(book, book.len(), 0);
    }
    part(book, SUMMARY * i, SUMMARY)
}

// The number at a place that is there: nothing is tested before it is read.
fn number_at(book: &[u8], i: usize) -> usize
    requires { i < places_in book.now }
    ensures { result ≡ le16 book.now (summary_bytes * i) }
{
    let at = SUMMARY * i;
    (wide(book[at]) + 256 * wide(book[at + 1])) as usize
}

// The first place that has a number; the one behind the last where none has. 0 is no block's number.
pub fn place_of(book: &[u8], number: usize) -> usize
    ensures { result ≡ place_of book.now number }
{
    let n = book.len() / SUMMARY;
    if number == 0 {
        return n;
    }
    for i in 0..n {
        if number_at(book, i) == number {
            return i;
        }
    }
    n
}

// What is asked of the block at a place at its atom a.
fn site_at(book: &[u8], i: usize, a: u8) -> JoinSite
    ensures { result ≡ atom_site (sites_in (summary_at book.now i)) a }
{
    let s = summary_at(book, i);
    JoinSite {
        atoms: atoms(s),
        ends: ends(s, a as usize),
    }
}

// What is wrong with the placement at index k: 16, with the first one 17, with a later one 23, 24, 18 or 19; or 0.
fn fault_of(book: &[u8], xs: &[u8], k: usize) -> usize
    ensures { result ≡ fault (shelf_in book.now) (placement_at xs.now) k }
{
    let q = placement_at(xs, k);
    let i = place_of(book, q.block as usize);
    if book.len() / SUMMARY <= i {
        return 16;
    }
    if k == 0 {
        return first_fault(q);
    }
    let parent = q.parent as usize;
    if is_outside(k, parent) {
        return parent_fault(parent);
    }
    let onto = placement_at(xs, parent - 1);
    join_fault(
        site_at(book, place_of(book, onto.block as usize), q.site),
        site_at(book, i, q.own),
        xs,
        k,
    )
}

// Refusals 15 to 19, 23 and 24 of an assembly's payload over a book.
pub fn check(book: &[u8], xs: &[u8]) -> Result<(), Refusal>
    ensures { result ≡ as_result (shelf_reply (shelf_in book.now) xs.now) }
{
    let p = le16_at(xs, 0) as usize;
    if is_outside(PLACEMENTS, p) {
        return Err(Rule::PlacementCount.at(0));
    }
    for k in 0..p {
        let f = fault_of(book, xs, k);
        if f != 0 {
            return Err(Refusal {
                number: f,
                place: k + 1,
            });
        }
    }
    Ok(())
}
