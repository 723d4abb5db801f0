// The even and odd polynomial values of a block.
#![tactic(auto)]

ghost use Rattle.std.specs.Prelude.{◌≡◌};
ghost use Rattle.poly.specs.Poly.{pairs_counted, value, polynomial_at, polynomial_reply};
ghost use Rattle.reply.specs.Read.{as_result};

use block::ATOMS;
use reply::{Refusal, Rule};

// The even and the odd value, kept together.
#[derive(Clone, Copy, Debug, PartialEq)]
pub struct Values {
    pub even: f64,
    pub odd: f64,
}

const FARTHEST: usize = ATOMS - 1;

// Start at 0; for k from 63 down to 1 add n(k), or 0 for the other parity, then multiply by x.
fn value_of(counts: [u16; ATOMS], parity: usize, x: f64) -> f64
    ensures { result ≡ value parity (pairs_counted counts) x }
{
    let mut v = 0.0f64;
    let mut k = FARTHEST;
    while 0 < k {
        if k % 2 == parity {
            v = (v + counts[k] as f64) * x;
        } else {
            v = (v + 0.0) * x;
        }
        k -= 1;
    }
    v
}

fn values_of(counts: [u16; ATOMS], x: f64) -> Result<Values, Refusal>
    ensures { result ≡ as_result (polynomial_at (pairs_counted counts) x) }
{
    if x > 0.0 {
        if x <= 1.0 {
            let even = value_of(counts, 0, x);
            let odd = value_of(counts, 1, x);
            return Ok(Values { even, odd });
        }
    }
    Err(Rule::Argument.at(0))
}

// The polynomial values of a block at x.
pub fn polynomial(n: usize, bonds: &[u8], x: f64) -> Result<Values, Refusal>
    ensures { result ≡ as_result (polynomial_reply n bonds.now x) }
{
    let pairs = block::pair_counts(n, bonds);
    match pairs.reply {
        Err(r) => Err(r),
        Ok(()) => values_of(pairs.at, x),
    }
}
