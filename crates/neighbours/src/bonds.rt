// The bonds of a text.
ghost use Rattle.std.specs.Prelude.{◌≡◌, true, cond, ◌+◌, ◌≤◌, length};
ghost use Rattle.adjacency.specs.Neighbours.{end, bonds_length};
ghost use Rattle.adjacency.specs.Work.{steps_at, is_bond, is_high, until, put_one, put_end, BondsPut, Sized, high_reply};
ghost use Rattle.reply.specs.Read.{as_result};

use super::{Reach, scan};
use reply::{Refusal, Rule};

// Whether a number after a label is a bond.
fn is_bond(label: usize, x: usize) -> bool
    ensures { result ≡ is_bond label x }
{
    label != 0 && label <= x
}

// Whether a number after a label is a label above n.
fn is_high(n: usize, label: usize, x: usize) -> bool
    ensures { result ≡ is_high n label x }
{
    label == 0 && n < x
}

// A bond's end as one byte.
fn end(x: usize) -> u8
    ensures { result ≡ end x }
{
    if x < 255 { x as u8 } else { 255 }
}

// How many bonds a number is.
pub(crate) fn one_if_bond(label: usize, x: usize) -> usize
    ensures { result ≡ cond (is_bond label x) 1 0 }
{
    if is_bond(label, x) { 1 } else { 0 }
}

// Puts the bond of a number, if it is one, and answers the index behind it.
fn put(out: &mut [u8], p: usize, label: usize, x: usize) -> usize
    requires { is_bond label x ≡ true → p + 2 ≤ length out.old }
    ensures index { result ≡ put_end p label x }
    ensures bytes { out.new ≡ put_one out.old p label x }
{
    if is_bond(label, x) {
        out[p] = end(label);
        out[p + 1] = end(x);
        return p + 2;
    }
    p
}

// Puts the bonds up to the first label above n.
pub(crate) fn fill(text: &[u8], from: usize, n: usize, out: &mut [u8]) -> Reach
    requires { (from ≤ length text.now) × (bonds_length (until n (steps_at 0 text.now from)) ≤ length out.old) }
    ensures { BondsPut n (steps_at 0 text.now from) out.old out.new result.bytes result.high }
{
    let mut at = from;
    let mut label = 0;
    let mut p = 0;
    loop {
        let x = scan::number(text, at);
        if text.len() <= x.place {
            return Reach {
                bytes: p,
                high: false,
            };
        }
        if is_high(n, label, x.value) {
            return Reach {
                bytes: p,
                high: true,
            };
        }
        p = put(out, p, label, x.value);
        label = scan::label_after(label, x.value);
        at = x.next;
    }
}

// The block's refusals of bonds after which a label above n stands, or none.
pub(crate) fn judged(n: usize, bonds: &[u8], high: bool) -> Result<(), Refusal>
    requires { Sized n bonds.now }
    ensures { result ≡ as_result (high_reply n bonds.now high) }
{
    let reply = block::check(n, bonds);
    if !high {
        return reply;
    }
    let here = Err(Rule::BondEnd.at(bonds.len() / 2 + 1));
    match reply {
        Ok(()) => here,
        Err(refusal) => {
            if refusal.number == 7 {
                here
            } else {
                Err(refusal)
            }
        }
    }
}
