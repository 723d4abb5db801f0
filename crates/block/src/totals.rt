// Sums over rows of distances, whatever the rows hold.
ghost use Rattle.std.specs.Prelude.{◌≡◌, min, ◌+◌, ◌*◌, ◌≤◌};
ghost use Rattle.half.specs.Half.{all_pairs, half_at};
ghost use Rattle.block.specs.Block.{most_atoms};
ghost use Rattle.block.specs.Sums.{counts_by};
ghost use Rattle.block.specs.Tally.{Tallied, run_at, Counts, CountsAdded};

use super::{ATOMS, DistanceRow, Tally};
use half::{Half, within};
use reply::wide;

// The first k entries of a row.
pub(crate) fn along(row: &DistanceRow, k: usize) -> Tally
    requires { k ≤ most_atoms }
    ensures { Tallied row.now k result }
{
    let mut even: u64 = 0;
    let mut odd: u64 = 0;
    let mut evens: u64 = 0;
    let mut odds: u64 = 0;
    let mut ones: u64 = 0;
    let mut twos: u64 = 0;
    for j in 0..k {
        let d = wide(row[j]);
        ones += (d == 1) as u64;
        twos += (d == 2) as u64;
        if d % 2 == 0 {
            even += d;
            evens += 1;
        } else {
            odd += d;
            odds += 1;
        }
    }
    Tally {
        even,
        odd,
        evens,
        odds,
        ones,
        twos,
    }
}

// How often each number stands among k bytes of a half, from a place on, added to counts.
fn count_run(at: [u16; ATOMS], half: &Half, from: usize, k: usize) -> [u16; ATOMS]
    requires { (k ≤ most_atoms) × (from + k ≤ all_pairs) × Counts (most_atoms * most_atoms) at }
    ensures { CountsAdded at (run_at half.now from) k result }
{
    let mut counts = at;
    for j in 0..k {
        let d = wide(half[from + j]) as usize;
        if d < ATOMS {
            counts[d] = counts[d] + 1;
        }
    }
    counts
}

// How many pairs of the first n atoms, at most ATOMS, lie at each distance.
pub(crate) fn count_pairs(half: &Half, n: usize) -> [u16; ATOMS]
    ensures { result ≡ counts_by (min n most_atoms) (half_at half.now) }
{
    let m = within(n);
    let mut at = [0u16; ATOMS];
    let mut from = 0;
    for i in 0..m {
        let next = count_run(at, half, from, m - 1 - i);
        at = next;
        from = from + (ATOMS - 1 - i);
    }
    at
}
