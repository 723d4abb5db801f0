// The number of two placed atoms over a book of summaries: it climbs from the later placement to its parent, one search a step.
#![tactic(auto)]

ghost use Rattle.std.specs.Prelude.{◌≡◌, ◌+◌, ◌*◌, ◌<◌, max};
ghost use Rattle.assembly.specs.Placements.{most_placements};
ghost use Rattle.climb.specs.Far.{far_of, far_by, earlier_of, FirstLeg, placed_far};

use assembly::{PLACEMENTS, placement_at};
use reply::{is_outside, wide};
use shelf::{place_of, summary_at};
use sighted::steps;
use summary::seen;

// The number of the atoms i and j of the block with a number.
fn inside(book: &[u8], number: u16, i: usize, j: usize) -> u64
    ensures { (result ≡ far_of book.now number i j) × (result < 65) }
{
    let all = seen(summary_at(book, place_of(book, number as usize)), i);
    wide(steps(&all.row, j))
}

// The index of the placement that a join at index k leads to. A parent that is none of the earlier placements counts as the first.
fn earlier(parent: u16, k: usize) -> usize
    ensures { result ≡ earlier_of parent k }
{
    let p = parent as usize;
    if is_outside(k, p) {
        return 0;
    }
    p - 1
}

// The first part of the way between two placed atoms: its bonds, and the placement's index and the atom that it leads to.
#[derive(Clone, Copy)]
struct Leg {
    bonds: u64,
    onto: usize,
    site: usize,
}

// From atom i of the placement at index k: all of the way where l is k, else that over the bond to its parent. It is not in climb, whose 32 frames would each hold a search.
fn first_leg(book: &[u8], xs: &[u8], k: usize, i: usize, l: usize, j: usize) -> Leg
    requires { k < most_placements }
    ensures { FirstLeg book.now xs.now k i l j result }
{
    let q = placement_at(xs, k);
    if k == l {
        return Leg {
            bonds: inside(book, q.block, i, j),
            onto: l,
            site: j,
        };
    }
    let bonds = inside(book, q.block, q.own as usize, i) + 1;
    let onto = earlier(q.parent, k);
    let site = q.site as usize;
    Leg { bonds, onto, site }
}

// The number of atom i of the placement at index k and atom j of that at index l. The larger index falls at each call.
fn climb(book: &[u8], xs: &[u8], k: usize, i: usize, l: usize, j: usize) -> u64
    requires { (k < most_placements) × (l < most_placements) }
    ensures { (result ≡ far_by book.now xs.now k i l j) × (result < 66 * (max k l + 1)) }
{
    if k < l {
        let up = first_leg(book, xs, l, j, k, i);
        return up.bonds + climb(book, xs, up.onto, up.site, k, i);
    }
    let up = first_leg(book, xs, k, i, l, j);
    if k == l {
        return up.bonds;
    }
    up.bonds + climb(book, xs, up.onto, up.site, l, j)
}

// The number of atom i of placement number k and atom j of placement number l over a book and an assembly's payload, whatever their bytes; 0 where
// one of the two can't be a placement.
pub fn far(book: &[u8], xs: &[u8], k: usize, i: usize, l: usize, j: usize) -> u64
    ensures { result ≡ placed_far book.now xs.now k i l j }
{
    if is_outside(PLACEMENTS, k) {
        return 0;
    }
    if is_outside(PLACEMENTS, l) {
        return 0;
    }
    climb(book, xs, k - 1, i, l - 1, j)
}
