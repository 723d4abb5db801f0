// What each bond answers for: document 001's pass in whole numbers, one start after the other.
ghost use Rattle.std.specs.Prelude.{◌≡◌, cond, ℕ, suc, ◌+◌, ◌*◌, ◌-◌, ◌/◌, min, ◌<◌, ◌≤◌, eqb, ltb, length, get_or};
ghost use Rattle.graph.specs.Graph.{Within};
ghost use Rattle.graph.specs.Paths.{path_count, denominator, share};
ghost use Rattle.graph.specs.Notions.{lcm_starts};
ghost use Rattle.block.specs.Block.{most_atoms, most_bytes, bonds_of, graph_of};
ghost use Rattle.block.specs.Numbered.{bond_at};
ghost use Rattle.block.specs.Lent.{EntriesFilled};
ghost use Rattle.shares.specs.Reply.{most_denominator};
ghost use Rattle.shares.specs.Work.{cap, full, at, carried, Start, BlockGiven, WholeBlock, Sofar, StartRows, SharesRoom};

use super::{BONDS, CAP, MOST, SEATS, common, sweeps};
use block::{DistanceRow, Farthest, Neighbours};
use half::Half;
use reply::wide_byte;

// What each atom after start weighs: its part of d.
fn weights(n: usize, c: &[u64; SEATS], start: usize, d: u64) -> [u64; SEATS]
    requires { (n ≤ most_atoms) × (start ≤ n) × ((v : ℕ) → Within n v → 0 < at c.now v) }
    ensures { ((v : ℕ) → Within n v → at result v ≡ cond (ltb start v) (d / at c.now v) 0) × ((w : ℕ) → at result w ≤ d) }
{
    let mut row = [0u64; SEATS];
    for v in start + 1..=n {
        row[v] = d / c[v];
    }
    row
}

// What a bond carries from a to b, if b is the farther one: the paths to a, times what lies onward from b.
fn passed(row: &DistanceRow, c: &[u64; SEATS], t: &[u64; SEATS], a: usize, b: usize) -> u64
    requires { Within most_atoms a × Within most_atoms b × (at c.now a ≤ cap) × (at t.now b ≤ full) }
    ensures { result ≡ cond (eqb (suc (get_or row.now (a - 1) 0)) (get_or row.now (b - 1) 0)) (at c.now a) 0 * at
        t.now b }
{
    let x = c[a] * t[b];
    if wide_byte(row[a - 1]) + 1 == wide_byte(row[b - 1]) {
        x
    } else {
        0
    }
}

// Adds to the entry of each bond what it carries.
fn add_flows(bonds: &[u8], row: &DistanceRow, c: &[u64; SEATS], t: &[u64; SEATS], out: &mut [u64])
    requires { ((n : ℕ) × (i : ℕ) × (d : ℕ) × StartRows n bonds.now row.now c.now t.now i d) × SharesRoom bonds.now out.old }
    ensures { (n i d : ℕ) → StartRows n bonds.now row.now c.now t.now i d
        → EntriesFilled (length bonds.now / 2)
        (λ k. get_or out.old k 0 + carried (graph_of n bonds.now) i d (bond_at bonds.now k))
        out.old out.new }
{
    let m = bonds.len() / 2;
    for k in 0..m {
        let a = wide_byte(bonds[2 * k]);
        let b = wide_byte(bonds[2 * k + 1]);
        let s = passed(row, c, t, a, b) + passed(row, c, t, b, a);
        out[k] = out[k] + s;
    }
}

// Multiplies the first m entries by f.
fn raise(m: usize, f: u64, out: &mut [u64])
    requires { (m ≤ length out.old) × ((k : ℕ) → k < m → get_or out.old k 0 * f ≤ most_atoms * full) }
    ensures { EntriesFilled m (λ k. get_or out.old k 0 * f) out.old out.new }
{
    if f == 1 {
        return;
    }
    for k in 0..m {
        out[k] = out[k] * f;
    }
}

// The start after i others: takes its path counts into D, and adds to the entry of each bond what it answers for in the pairs of the start and a
// later atom. The entries go with D. Where D is above the most, they are worth nothing.
fn add_start(
    n: usize,
    bonds: &[u8],
    near: &Neighbours,
    row: &DistanceRow,
    sets: &[u64; SEATS],
    top: usize,
    i: usize,
    before: u64,
    out: &mut [u64],
) -> u64
    requires { Start n (bonds_of bonds.now) near.now row.now sets.now top (i + 1) × WholeBlock n bonds.now i before
        × Sofar n bonds.now i before out.old }
    ensures { (result ≡ min cap (lcm_starts n (path_count (graph_of n bonds.now)) (i + 1)))
        × (result ≤ most_denominator → Sofar n bonds.now (i + 1) result out.new) }
{
    let start = i + 1;
    let c = sweeps::counts(near, sets, top, start);
    let d = common::common_start(n, &c, start, before);
    if MOST < d {
        return d;
    }
    raise(bonds.len() / 2, d / before, out);
    let mut t = weights(n, &c, start, d);
    sweeps::onward(near, sets, top, &mut t);
    add_flows(bonds, row, &c, &t, out);
    d
}

// D, up to just above the most that it may be, and, where it is not above that, the share of each bond over D in the lent entries, which are 0.
pub(crate) fn fill(
    n: usize,
    bonds: &[u8],
    near: &Neighbours,
    half: &Half,
    far: &Farthest,
    out: &mut [u64],
) -> u64
    requires { WholeBlock n bonds.now 0 1 × BlockGiven n (bonds_of bonds.now) near.now half.now far.now
        × Sofar n bonds.now 0 1 out.old }
    ensures { (result ≡ min cap (denominator (graph_of n bonds.now)))
        × (result ≤ most_denominator → (k : ℕ) → k < length bonds.now / 2
        → get_or out.new k 0 ≡ share (graph_of n bonds.now) (bond_at bonds.now k)) }
{
    let mut d: u64 = 1;
    for i in 0..n {
        if MOST < d {
            return CAP;
        }
        let row = half::row(half, i + 1);
        let levels = sweeps::by_level(n, &row);
        let top = wide_byte(far[i]);
        let next = add_start(n, bonds, near, &row, &levels, top, i, d, out);
        d = next;
    }
    d
}

// Puts the first m of the entries worked out into those that are lent.
pub(crate) fn put(m: usize, entries: &[u64; BONDS], out: &mut [u64])
    requires { (m ≤ length out.old) × (m ≤ most_bytes / 2) }
    ensures { EntriesFilled m (λ k. get_or entries.now k 0) out.old out.new }
{
    for j in 0..m {
        out[j] = entries[j];
    }
}
