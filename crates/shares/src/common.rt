// The least common multiple of path counts, by Euclid's divisor, up to just above the most that D may be.
ghost use Rattle.std.specs.Prelude.{◌≡◌, ℕ, ◌+◌, ◌-◌, min, ◌<◌, ◌≤◌};
ghost use Rattle.graph.specs.Paths.{lcm, lcm_over};
ghost use Rattle.graph.specs.Notions.{Gcd};
ghost use Rattle.shares.specs.Work.{cap, Tally};

use super::{CAP, SEATS};

// The greatest common divisor.
fn gcd(a: u64, b: u64) -> u64
    ensures { Gcd a b result }
{
    let mut x = a;
    let mut y = b;
    while y != 0 {
        let rest = x % y;
        x = y;
        y = rest;
    }
    x
}

// The least common multiple, and the cap where it is more.
fn common(a: u64, b: u64) -> u64
    requires { (0 < a) × (a ≤ cap) × (0 < b) × (b ≤ cap) }
    ensures { result ≡ min cap (lcm a b) }
{
    if a % b == 0 {
        return a;
    }
    let m = a / gcd(a, b) * b;
    if m < CAP { m } else { CAP }
}

// The counts of the atoms after start, taken into the least common multiple of those before.
pub(crate) fn common_start(n: usize, c: &[u64; SEATS], start: usize, before: u64) -> u64
    requires { (start ≤ n) × ((f : ℕ → ℕ) × (m : ℕ) × Tally n f m c.now before) }
    ensures { (f : ℕ → ℕ) (m : ℕ) → Tally n f m c.now before → result ≡ min cap (lcm_over (n - start) (λ k. f (start + k)) m) }
{
    let mut all = before;
    for k in start + 1..=n {
        all = common(all, c[k]);
    }
    all
}
