// Rows of numbers, one for each atom, filled level by level.
//
// A level is the set of the atoms at one distance from the start. A square of four atoms, from atom 1:
//
//        1            level 0: {1}       sets[0] = 0001 (binary, atom 1 is the last digit)
//       / \
//      2   3          level 1: {2, 3}    sets[1] = 0110
//       \ /
//        4            level 2: {4}       sets[2] = 1000, top = 2
//
// Path counts go outwards. An atom has what its neighbours in the level before have; only the start has 1 of its own:
//
//      atom 1: 1      atom 2: 1 (of 1)      atom 3: 1 (of 1)      atom 4: 1 + 1 = 2 (of 2 and 3)
//
// What lies onward goes inwards, by the same sweep over the levels in reverse, 1000, 0110, 0001: each atom has its weight of its own, and what
// its neighbours one farther have. With D = 2 the weights are 2, 2 and 1 for the atoms 2, 3 and 4, as D over their counts:
//
//      atom 4: 1      atom 2: 2 + 1 = 3     atom 3: 2 + 1 = 3     atom 1: 0 + 3 + 3 = 6
//
// The bond 2-4 carries what leads to 2 times what lies onward from 4, 1 times 1: half a path of D = 2. The bond 1-2 carries 1 times 3.
ghost use Rattle.std.specs.Prelude.{◌≡◌, Bool, List, ℕ, suc, ◌+◌, ◌*◌, ◌^◌, min, ◌<◌, ◌≤◌, length, get_or};
ghost use Rattle.graph.specs.Graph.{Bond, Within};
ghost use Rattle.graph.specs.Paths.{path_count};
ghost use Rattle.graph.specs.Notions.{gathered};
ghost use Rattle.block.specs.Block.{most_atoms};
ghost use Rattle.block.specs.Sums.{entry};
ghost use Rattle.shares.specs.Work.{cap, full, at, over_set, heights, NearSets, Tops, Levels, Rule, CappedRow, graph, Start};

use super::{CAP, FULL, SEATS};
use block::{ATOMS, DistanceRow, Neighbours};
use reply::wide_byte;

// The sum, and the cap where it is more.
fn add(a: u64, b: u64, cap: u64) -> u64
    requires { (a ≤ most_atoms * full) × (b ≤ full) }
    ensures { result ≡ min cap (a + b) }
{
    let sum = a + b;
    if sum < cap { sum } else { cap }
}

// The first n atoms of a row by their distances, as sets: the levels up to any top that no distance is above.
pub(crate) fn by_level(n: usize, row: &DistanceRow) -> [u64; SEATS]
    requires { (n ≤ most_atoms) × ((j : ℕ) → j < n → get_or row.now j 0 < most_atoms) }
    ensures { (top : ℕ) → Tops n (entry row.now) top → Levels n (entry row.now) result top }
{
    let mut sets = [0u64; SEATS];
    for j in 0..n {
        let d = wide_byte(row[j]);
        sets[d] = sets[d] | (1u64 << j);
    }
    sets
}

// The levels from the top down.
fn reversed(sets: &[u64; SEATS], top: usize) -> [u64; SEATS]
    requires { top < most_atoms }
    ensures { (n : ℕ) (key : ℕ → ℕ) → Levels n key sets.now top → Levels n (heights top key) result top }
{
    let mut back = [0u64; SEATS];
    for d in 0..=top {
        back[d] = sets[top - d];
    }
    back
}

// What a row has for the atoms of a set.
fn pull(set: u64, row: &[u64]) -> u64
    requires { (set < 2 ^ most_atoms) × (length row.now ≡ suc most_atoms) × ((w : ℕ) → at row.now w ≤ full) }
    ensures { (result ≡ over_set set (at row.now)) × (result ≤ most_atoms * full) }
{
    let mut rest = set;
    let mut sum: u64 = 0;
    while rest != 0 {
        let a = u64::trailing_zeros(rest) as usize;
        rest = rest & (rest - 1);
        sum += row[a + 1];
    }
    sum
}

// A row has what each atom has of its own; the sweep puts the rule's row in its place: for each atom its own and what its neighbours in the level
// before have, up to the cap. Of level d the atoms of rest wait; below is the level before.
fn sweep(near: &Neighbours, sets: &[u64; SEATS], top: usize, row: &mut [u64], cap: u64)
    requires { ((n : ℕ) × (B : ℕ → ℕ → Bool) × (key : ℕ → ℕ) × NearSets n B near.now × Levels n key sets.now top × (cap ≤ full))
        × (length row.old ≡ suc most_atoms) × ((w : ℕ) → at row.old w ≤ cap) }
    ensures { (n : ℕ) (B : ℕ → ℕ → Bool) (key F : ℕ → ℕ) → NearSets n B near.now → Levels n key sets.now top
        → Rule n B key (at row.old) F → CappedRow n cap F row.new }
{
    let mut below: u64 = 0;
    let mut rest = sets[0];
    let mut d = 0;
    while d <= top {
        if rest != 0 {
            let a = u64::trailing_zeros(rest) as usize;
            rest = rest & (rest - 1);
            let s = pull(near[a] & below, row);
            row[a + 1] = add(s, row[a + 1], cap);
        } else {
            below = sets[d];
            d += 1;
            rest = sets[d];
        }
    }
}

// The counts of shortest paths from the atom start, up to the cap.
pub(crate) fn counts(
    near: &Neighbours,
    sets: &[u64; SEATS],
    top: usize,
    start: usize,
) -> [u64; SEATS]
    requires { (n : ℕ) × (bs : List Bond) × (row : List ℕ) × Start n bs near.now row sets.now top start }
    ensures { (n : ℕ) (bs : List Bond) (row : List ℕ) → Start n bs near.now row sets.now top start
        → CappedRow n cap (path_count (graph n bs) start) result }
{
    let mut row = [0u64; SEATS];
    row[start] = 1;
    sweep(near, sets, top, &mut row, CAP);
    row
}

// What lies onward from each atom, away from the start, in place of its weight: its weight and theirs, up to what fits.
pub(crate) fn onward(near: &Neighbours, sets: &[u64; SEATS], top: usize, weight: &mut [u64])
    requires { ((n : ℕ) × (bs : List Bond) × (row : List ℕ) × (i : ℕ) × Start n bs near.now row sets.now top i)
        × (length weight.old ≡ suc most_atoms) × ((w : ℕ) → at weight.old w ≤ full) }
    ensures { (n : ℕ) (bs : List Bond) (row : List ℕ) (i : ℕ) (q : ℕ → ℕ) → Start n bs near.now row sets.now top i
        → ((v : ℕ) → Within n v → at weight.old v ≡ q v) → CappedRow n full (gathered (graph n bs) i q) weight.new }
{
    let back = reversed(sets, top);
    sweep(near, &back, top, weight, FULL)
}
