// Distances by search, level by level: a set of atoms is one number.
ghost use Rattle.std.specs.Prelude.{◌≡◌, List, ℕ, ◌-◌, ◌^◌, min, replicate};
ghost use Rattle.graph.specs.Graph.{Graph, connected as is_connected};
ghost use Rattle.half.specs.Half.{all_pairs};
ghost use Rattle.block.specs.Block.{most_atoms, graph_of};
ghost use Rattle.block.specs.Rows.{no_row, half_table, far_of};
ghost use Rattle.block.specs.Near.{ReadyBlock};
ghost use Rattle.block.specs.Found.{SearchTask, Searched};

use super::{ATOMS, Farthest};
use half::{put_row, within};

// The set of the atoms 1 to n, at most ATOMS.
pub fn first_atoms(n: usize) -> u64
    ensures { result ≡ 2 ^ min n most_atoms - 1 }
{
    let m = within(n);
    if m == 0 { 0 } else { u64::MAX >> (ATOMS - m) }
}

// How a search ended: the set of the atoms that were not met, and the last level, which is how far the farthest atom is.
#[derive(Clone, Copy)]
pub(crate) struct Ended {
    pub(crate) rest: u64,
    pub(crate) last: u8,
}

// The search from atom i: it fills an empty row with the distances. The atoms of level wait until their neighbours were looked at, which go into
// next; rest is not met yet.
pub(crate) fn from_atom(near: &[u64], n: usize, i: usize, row: &mut [u8]) -> Ended
    requires { ((g : Graph) × SearchTask g near.now n i) × (row.old ≡ no_row) }
    ensures { (g : Graph) → SearchTask g near.now n i → Searched g i row.new result.rest result.last }
{
    let mut level = 1u64 << (i - 1);
    let mut rest = first_atoms(n) ^ level;
    let mut next = 0u64;
    let mut d = 0u8;
    while level != 0 {
        let a = u64::trailing_zeros(level) as usize;
        level = level & (level - 1);
        row[a] = d;
        next = next | near[a];
        if level == 0 {
            level = next & rest;
            rest = rest ^ level;
            next = 0;
            d += 1;
        }
    }
    Ended { rest, last: d - 1 }
}

// Whether every pair of n atoms has a path.
pub(crate) fn connected(near: &[u64], n: usize) -> bool
    requires { (xs : List ℕ) × SearchTask (graph_of n xs) near.now n 1 }
    ensures { (xs : List ℕ) → SearchTask (graph_of n xs) near.now n 1 → result ≡ is_connected (graph_of n xs) }
{
    let mut row = [0u8; ATOMS];
    let ended = from_atom(near, n, 1, &mut row);
    ended.rest == 0
}

// Half of the distances of a block of n atoms, row by row in what is lent, all 0 before; and the largest of each row.
pub(crate) fn from_all(near: &[u64], n: usize, half: &mut [u8], far: &mut Farthest)
    requires { ((xs : List ℕ) × ReadyBlock n xs near.now) × (half.old ≡ replicate all_pairs 0) }
    ensures half { (xs : List ℕ) → ReadyBlock n xs near.now → half.new ≡ half_table n xs }
    ensures far { (xs : List ℕ) → ReadyBlock n xs near.now → far.new ≡ far_of n xs }
{
    *far = [0u8; ATOMS];
    for i in 0..n {
        let mut row = [0u8; ATOMS];
        let ended = from_atom(near, n, i + 1, &mut row);
        put_row(half, i + 1, &row, n);
        far[i] = ended.last;
    }
}
