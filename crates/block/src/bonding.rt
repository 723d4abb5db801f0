// The bonds of a block: their faults, one by one, and the neighbours of each atom, drawn before they are tested.
ghost use Rattle.std.specs.Prelude.{◌≡◌, ◌&&◌, cond, [], ◌≤◌, length};
ghost use Rattle.std.specs.Int.Count.{ones};
ghost use Rattle.graph.specs.Graph.{bond, any_joins, degree};
ghost use Rattle.reply.specs.Rules.{number_if};
ghost use Rattle.block.specs.Block.{most_atoms, bonds_of, bond_fault, bonds_reply};
ghost use Rattle.block.specs.Rows.{no_row};
ghost use Rattle.block.specs.Sketched.{Joined, Sketched, Sized, or_seven};

use super::LIMIT;
use reply::{Refusal, Rule, is_outside};

// 1 where both hold.
fn one_if(x: bool, y: bool) -> usize
    ensures { (result ≡ cond (x && y) 1 0) × (result ≤ 1) }
{
    if x {
        if y {
            return 1;
        }
    }
    0
}

// How many ends of bonds are at an atom.
pub fn degree_of(bonds: &[u8], a: u8) -> usize
    ensures { (result ≡ degree (bonds_of bonds.now) a) × (result ≤ length bonds.now) }
{
    let mut total = 0;
    let mut i = 0;
    while 2 <= bonds.len() - i {
        let first = bonds[i];
        let second = bonds[i + 1];
        total = total + (one_if(true, first == a) + one_if(true, second == a));
        i += 2;
    }
    total
}

// Whether one of the bonds joins two atoms.
fn is_listed(bonds: &[u8], a: u8, b: u8) -> bool
    ensures { result ≡ any_joins (bonds_of bonds.now) a b }
{
    let mut i = 0;
    while 2 <= bonds.len() - i {
        let first = bonds[i];
        let second = bonds[i + 1];
        if one_if(first == a, second == b) + one_if(first == b, second == a) != 0 {
            return true;
        }
        i += 2;
    }
    false
}

// The rule that refuses the bond a-b after others.
fn fault(n: usize, before: &[u8], a: u8, b: u8) -> Option<Rule>
    ensures { number_if result ≡ bond_fault n (bonds_of before.now) (bond a b) }
{
    if is_outside(n, a as usize) || is_outside(n, b as usize) {
        return Some(Rule::BondEnd);
    }
    if a == b {
        return Some(Rule::SelfBond);
    }
    if is_listed(before, a, b) {
        return Some(Rule::ListedBefore);
    }
    if degree_of(before, a) >= LIMIT || degree_of(before, b) >= LIMIT {
        return Some(Rule::SeventhBond);
    }
    None
}

// The first refusal of the bonds, 3 to 6, or 7.
pub(crate) fn refusal(n: usize, bonds: &[u8]) -> Refusal
    ensures { result ≡ or_seven (bonds_reply n [] (bonds_of bonds.now)) }
{
    let m = bonds.len() / 2;
    for k in 0..m {
        if let Some(rule) = fault(n, &bonds[..2 * k], bonds[2 * k], bonds[2 * k + 1]) {
            return rule.at(k + 1);
        }
    }
    Rule::NoPath.at(0)
}

// What drawing tells: whether the bonds are fine, and some atoms that a walk leads to from atom 1.
#[derive(Clone, Copy)]
pub(crate) struct Sketch {
    pub(crate) fine: bool,
    pub(crate) reached: u64,
}

// The ends of a bond join what is reached, where one of them is.
fn reached_by(reached: u64, ends: u64) -> u64
    ensures { Joined reached ends result }
{
    if reached & ends == 0 {
        reached
    } else {
        reached | ends
    }
}

// The bonds are drawn in what is lent, empty before; fine where all ends are atoms.
pub(crate) fn sketched(n: usize, bonds: &[u8], near: &mut [u64]) -> Sketch
    requires { (n ≤ most_atoms) × (near.old ≡ no_row) }
    ensures { Sketched n bonds.now result.fine result.reached near.new }
{
    let m = bonds.len() / 2;
    let mut reached: u64 = 1;
    for k in 0..m {
        let a = bonds[2 * k] as usize;
        let b = bonds[2 * k + 1] as usize;
        if is_outside(n, a) || is_outside(n, b) {
            return Sketch {
                fine: false,
                reached: 0,
            };
        }
        let u = a - 1;
        let v = b - 1;
        let one = 1u64 << u;
        let two = 1u64 << v;
        near[u] = near[u] | two;
        near[v] = near[v] | one;
        reached = reached_by(reached, one | two);
    }
    Sketch {
        fine: true,
        reached,
    }
}

// How many atoms a set has.
pub fn size(set: u64) -> u64
    ensures { (result ≡ ones set) × (result ≤ most_atoms) }
{
    u64::count_ones(set) as u64
}

// Whether the sets of the first n atoms have as many atoms together as there are ends of bonds, and none more than LIMIT: then no bond is refused. A bond
// that is listed again, or joins an atom to itself, adds less. LIMIT + 2 is a power of 2: binary digits of numbers below it make none above it.
pub(crate) fn is_plain(n: usize, ends: u64, near: &[u64]) -> bool
    requires { (n ≤ most_atoms) × (length near.now ≡ most_atoms) }
    ensures { Sized n ends near.now result }
{
    let mut sum: u64 = 0;
    let mut high: u64 = 0;
    for i in 0..n {
        let k = size(near[i]);
        sum = sum + k;
        high = high | (k + 1);
    }
    if sum != ends {
        return false;
    }
    high < LIMIT as u64 + 2
}
