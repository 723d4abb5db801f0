// The largest t with t squared times p at most 10^18: a guess, of which nothing is proved but that it fits, and then as many steps down and up as it takes.
ghost use Rattle.std.specs.Prelude.{◌≡◌, ◌+◌, ◌*◌, ◌≤◌, ◌<◌};
ghost use Rattle.balaban.specs.Balaban.{bound, largest_root};
ghost use Rattle.balaban.specs.Work.{unit, word, Root};

const UNIT: u64 = 1_000_000_000;

const BOUND: u64 = UNIT * UNIT;

// Numbers of 32 binary digits, read as fractions of this.
const WORD: u64 = 4_294_967_296;

const THREE: u64 = 3_221_225_472;

// The product of two fractions.
fn times(a: u64, b: u64) -> u64
    requires { (a < word) × (b < word) }
    ensures { result ≤ a }
{
    a * b / WORD
}

// z, or the largest fraction.
fn fraction(z: u64) -> u64
    ensures { result < word }
{
    if z < WORD { z } else { WORD - 1 }
}

// 3/4 less b, or 0.
fn less(b: u64) -> u64
    ensures { result < word }
{
    if b < THREE { THREE - b } else { 0 }
}

// One step of Newton's rule for half of 1 over the root of x.
fn nearer(x: u64, y: u64) -> u64
    requires { (x < word) × (y < word) }
    ensures { result < word }
{
    let a = times(y, y);
    let b = times(x, a);
    let c = less(b);
    let z = times(y, c);
    fraction(2 * z)
}

// A guess at half of 1 over the root of x, from 1/4 up: a straight line, then three steps.
fn half_inverse(x: u64) -> u64
    requires { x < word }
    ensures { result < word }
{
    let a = fraction(4_579_722_461 - x * 39 / 64);
    let b = nearer(x, a);
    let c = nearer(x, b);
    nearer(x, c)
}

// p with its upper half moved to the front, by an even number of places.
fn fronted(p: u64, half: u32) -> u64
    requires { half < 32 }
    ensures { result < word }
{
    (p << (2 * half)) / WORD
}

// A guess at 10^9 over the root of p.
fn guess(p: u64) -> u64
    ensures { result ≤ unit }
{
    let half = u64::leading_zeros(p) / 2 % 32;
    let x = fronted(p, half);
    let y = half_inverse(x);
    let t = times(UNIT, y);
    t >> (31 - half)
}

// The first number from `from` down whose square is at most q.
fn down(q: u64, from: u64) -> u64
    requires { from ≤ unit }
    ensures { (result * result ≤ q) × (result ≤ unit) }
{
    let mut t = from;
    while t * t > q {
        t -= 1;
    }
    t
}

// The root of q, rounded down, from a number that is not above it.
fn up(q: u64, from: u64) -> u64
    requires { (from * from ≤ q) × (from ≤ unit) × (q ≤ bound 1) }
    ensures { Root q result × (result ≤ unit) }
{
    let mut t = from;
    while (t + 1) * (t + 1) <= q {
        t += 1;
    }
    t
}

// The largest t with t squared times p at most 10^18, and 0 where p is 0.
pub(crate) fn largest(p: u64) -> u64
    ensures { (result ≡ largest_root (bound 1) p) × (result ≤ unit) }
{
    if p == 0 {
        return 0;
    }
    let q = BOUND / p;
    let t = guess(p);
    let s = down(q, t);
    up(q, s)
}
