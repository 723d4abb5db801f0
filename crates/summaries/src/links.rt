// The placements of an assembly in a table of their own, so that nothing is tested where one is read.
ghost use Rattle.std.specs.Prelude.{◌≡◌, ◌*◌, ◌-◌, ◌/◌, ◌%◌, ◌^◌, ◌≤◌, ◌<◌};
ghost use Rattle.assembly.specs.Placements.{most_placements, placement_at};
ghost use Rattle.summaries.specs.Ready.{LinkedUpTo, joins_in, end_of};

use assembly::{PLACEMENTS, placement_at};

// The ends of each join, and behind them the number of each placement's parent. At 2 k is the own atom of the placement at index k, at 2 k + 1 the atom of its parent that it is
// joined to: 256 times the block's number, and the atom.
pub(crate) type Links = [u32; 3 * PLACEMENTS];

const PARENTS: usize = 2 * PLACEMENTS;

fn number(x: u32) -> usize
    ensures { (result ≡ x) × (result < 2 ^ 32) }
{
    x as usize
}

pub(crate) fn end_at(links: &Links, e: usize) -> usize
    requires { e < 2 * most_placements }
    ensures { (result ≡ end_of links.now e) × (result < 2 ^ 32) }
{
    number(links[e])
}

pub(crate) fn parent_of(links: &Links, k: usize) -> usize
    requires { k < most_placements }
    ensures { (result ≡ (joins_in links.now k).parent) × (result < 2 ^ 32) }
{
    number(links[PARENTS + k])
}

fn key(block: u16, atom: u8) -> u32
    ensures { (result / 256 ≡ block) × (result % 256 ≡ atom) }
{
    256 * (block as u32) + (atom as u32)
}

// The number of the block of placement number p, and where p is 0, of the first.
fn block_of(xs: &[u8], p: u16) -> u16
    ensures { result ≡ (placement_at xs.now (p - 1)).block }
{
    if p == 0 {
        return placement_at(xs, 0).block;
    }
    placement_at(xs, (p as usize) - 1).block
}

// The first `count` placements of an assembly's payload.
pub(crate) fn links_of(xs: &[u8], count: usize) -> Links
    requires { count ≤ most_placements }
    ensures { LinkedUpTo xs.now result count }
{
    let mut links = [0u32; 3 * PLACEMENTS];
    for k in 0..count {
        let q = placement_at(xs, k);
        links[2 * k] = key(q.block, q.own);
        links[2 * k + 1] = key(block_of(xs, q.parent), q.site);
        links[PARENTS + k] = q.parent as u32;
    }
    links
}
