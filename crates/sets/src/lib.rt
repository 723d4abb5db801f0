// The sets of bonds that share no atom, and the sets of atoms no two of which are bonded, of a block that is a tree: the Hosoya index and the Merrifield-Simmons index.
//
// A tree loses one leaf after the other, each merged into the atom it hangs on. No distance is needed. Each atom has a key: a unit for each of its
// bonds, and the numbers of the atoms at their other ends added up. So a key of one unit tells of one bond, and to which atom; the root's is kept
// above that. A leaf is found by looking at each atom once, and after a merge at the atom that was merged into; as long as a bond is left there is
// one. Both kinds of sets are worked in one loop: two chains of products then run beside each other.
#![tactic(auto)]

ghost use Rattle.std.specs.Prelude.{◌≡◌};
ghost use Rattle.reply.specs.Read.{as_result};
ghost use Rattle.block.specs.Block.{graph_of};
ghost use Rattle.sets.specs.Reply.{sets_of, sets_reply, sets_from_reply};
ghost use Rattle.sets.specs.Merging.{weight, taken, added, WeightPair, Store, Stored, BondsListed, Adds, Keyed, Rooted};

use block::ATOMS;
use reply::{Refusal, Rule};

// The number of sets of bonds that share no atom, and of sets of atoms no two of which are bonded; the empty set is counted in each.
#[derive(Clone, Copy, Debug, PartialEq, Eq)]
pub struct Sets {
    pub bonds: u64,
    pub atoms: u64,
}

// What the part of a tree counts that was merged into an atom v, in the terms of [Ilić, Ilić]. Sets of bonds: x is h[v], all sets of that part, and y is hw[v], those that leave
// v free. Sets of atoms: x is iw[v], those without v, and y those with v, so that i[v] is x + y.
#[derive(Clone, Copy)]
struct Weight {
    pub x: u64,
    pub y: u64,
}

// An entry for each atom, at its number.
const PLACES: usize = ATOMS + 1;

// What a bond adds to the key of an atom, beside the number of its other end. So a key below twice that, and not below it, tells of one bond, and to which atom.
const UNIT: u32 = 256;

// A child with the weight (u, v) is merged into an atom with the weight (x, y).
fn combine(kind: bool, x: u64, y: u64, u: u64, v: u64) -> Weight
    requires { WeightPair kind (weight x y) (weight u v) }
    ensures { result ≡ taken kind (weight x y) (weight u v) }
{
    if kind {
        Weight {
            x: x * u + y * v,
            y: y * u,
        }
    } else {
        Weight {
            x: x * u + x * v,
            y: u * y,
        }
    }
}

// Atom u is merged into atom v, and counts nothing more.
fn merge(kind: bool, xs: &mut [u64], ys: &mut [u64], u: usize, v: usize)
    requires { Store kind xs.old ys.old u v }
    ensures { Stored kind xs.old ys.old u v xs.new ys.new }
{
    let next = combine(kind, xs[v], ys[v], xs[u], ys[u]);
    xs[v] = next.x;
    ys[v] = next.y;
    xs[u] = 1;
    ys[u] = 0;
}

// A bond to atom b is added to the key of atom a.
fn add(keys: &mut [u32], a: usize, b: usize)
    requires { Adds keys.old a b }
    ensures { keys.new ≡ added keys.old a b }
{
    keys[a] = keys[a] + (UNIT + b as u32);
}

// The key of each atom. The root's is that of an atom with two bonds more, so that it never tells of one.
fn keyed(bonds: &[u8], root: usize) -> [u32; PLACES]
    requires { BondsListed bonds.now root }
    ensures { Keyed bonds.now root result }
{
    let mut keys = [0u32; PLACES];
    keys[root] = 2 * UNIT;
    let m = bonds.len() / 2;
    for k in 0..m {
        let a = reply::wide(bonds[2 * k]) as usize;
        let b = reply::wide(bonds[2 * k + 1]) as usize;
        add(&mut keys, a, b);
        add(&mut keys, b, a);
    }
    keys
}

// The recursion of [Ilić, Ilić] from a root: an atom other than the root that has one bond left has no child to wait for, and is merged into the atom that it hangs on, until no
// bond is left. Those up to i were looked at: of them none but a may have one bond left.
fn recursion(n: usize, bonds: &[u8], root: usize) -> Sets
    requires { Rooted n bonds.now root }
    ensures { result ≡ sets_of (graph_of n bonds.now) }
{
    let mut keys = keyed(bonds, root);
    let mut all = [1u64; PLACES];
    let mut free = [1u64; PLACES];
    let mut omitted = [1u64; PLACES];
    let mut chosen = [1u64; PLACES];
    let mut left = bonds.len() / 2;
    let mut i = 1;
    let mut a = 1;
    while left > 0 {
        let key = keys[a];
        if key / UNIT == 1 {
            let p = (key % UNIT) as usize;
            merge(true, &mut all, &mut free, a, p);
            merge(false, &mut omitted, &mut chosen, a, p);
            keys[p] = keys[p] - (UNIT + a as u32);
            keys[a] = 0;
            left -= 1;
            a = p;
        } else {
            i += 1;
            a = i;
        }
    }
    Sets {
        bonds: all[root],
        atoms: omitted[root] + chosen[root],
    }
}

// The two numbers of a block that is a tree, worked out from whichever atom is taken as the root, or its refusal; 18 at place 0 where there is no such atom, and then 34 at
// place 0 where the block is no tree.
pub fn count_from(n: usize, bonds: &[u8], root: usize) -> Result<Sets, Refusal>
    ensures { result ≡ as_result (sets_from_reply n bonds.now root) }
{
    block::check(n, bonds)?;
    if reply::is_outside(n, root) {
        return Err(Rule::JoinAtom.at(0));
    }
    if bonds.len() / 2 + 1 != n {
        return Err(Rule::NoTree.at(0));
    }
    Ok(recursion(n, bonds, root))
}

// The two numbers of a block that is a tree, or its refusal; 34 at place 0 where it is none.
pub fn count(n: usize, bonds: &[u8]) -> Result<Sets, Refusal>
    ensures { result ≡ as_result (sets_reply n bonds.now) }
{
    count_from(n, bonds, 1)
}
