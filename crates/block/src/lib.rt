// One block: its refusals 1 to 7, its distances, indices and vertex sums.
#![tactic(auto)]

ghost use Rattle.std.specs.Prelude.{true, ◌≡◌, min};
ghost use Rattle.reply.specs.Read.{read, as_result};
ghost use Rattle.block.specs.Block.{most_atoms, drawn_reply, block_reply};
ghost use Rattle.block.specs.Rows.{no_row, half_after, far_after, row_reply, said_row};
ghost use Rattle.block.specs.Index.{vertex_reply, distance_reply, pairs_reply, said_pairs};
ghost use Rattle.block.specs.Sums.{entry, vertex_by};
ghost use Rattle.block.specs.Opened.{drawn_near, opened_near};
ghost use Rattle.block.specs.Near.{Admitted};
ghost use Rattle.block.specs.Sketched.{Sketched, or_seven};

mod bonding;
mod search;
mod totals;

use bonding::Sketch;
pub use bonding::{degree_of, size};
use half::{Half, PAIRS, get, within};
use reply::{Refusal, Rule, is_outside, wide};
pub use search::first_atoms;

// The most atoms of a block, the most bonds of an atom, and the most bytes that a block's bonds take.
pub const ATOMS: usize = half::ATOMS;

pub const LIMIT: usize = 6;

pub const BYTES: usize = ATOMS * LIMIT;

// The distances from one atom, that to atom j at j - 1.
pub type DistanceRow = [u8; ATOMS];

// How far the farthest atom is from each: from atom i at i - 1.
pub type Farthest = [u8; ATOMS];

// The distances from one atom, that to atom j at j - 1, and the largest of them; all 0 where the reply is a refusal.
#[derive(Clone, Copy, Debug, PartialEq, Eq)]
pub struct OneRow {
    pub reply: Result<(), Refusal>,
    pub row: DistanceRow,
    pub largest: u8,
}

// The atom count, W, its even and odd parts, the polarity and the largest distance.
#[derive(Clone, Copy, Debug, PartialEq, Eq)]
pub struct Indices {
    pub atoms: u64,
    pub w: u64,
    pub even: u64,
    pub odd: u64,
    pub polarity: u64,
    pub largest: u64,
}

// The vertex sum of an atom, its even and odd parts, its even and odd counts, how many atoms lie at distance 1 and 2, and how far the farthest is.
#[derive(Clone, Copy, Debug, PartialEq, Eq)]
pub struct Vertex {
    pub sum: u64,
    pub even: u64,
    pub odd: u64,
    pub evens: u64,
    pub odds: u64,
    pub ones: u64,
    pub twos: u64,
    pub farthest: u64,
}

// How many pairs of atoms lie at each distance; all 0 where the block is refused.
#[derive(Clone, Copy, Debug, PartialEq, Eq)]
pub struct Pairs {
    pub reply: Result<(), Refusal>,
    pub at: [u16; ATOMS],
}

// The neighbours of each atom: those of atom u are a set, at u - 1; atom v is in it where its binary digit at v - 1 is 1.
pub type Neighbours = [u64; ATOMS];

// What some distances add up to: the even ones and the odd ones, how many there are of each, and how many are 1 and 2.
#[derive(Clone, Copy)]
struct Tally {
    pub even: u64,
    pub odd: u64,
    pub evens: u64,
    pub odds: u64,
    pub ones: u64,
    pub twos: u64,
}

// The first refusal of a block, 1 to 6, or 7.
fn refusal(n: usize, bonds: &[u8]) -> Refusal
    ensures { result ≡ or_seven (drawn_reply n bonds.now) }
{
    if is_outside(ATOMS, n) {
        return Rule::AtomCount.at(0);
    }
    if bonds.len() % 2 != 0 || bonds.len() > BYTES {
        return Rule::BondBytes.at(0);
    }
    bonding::refusal(n, bonds)
}

// The bonds of a block, drawn in what is lent, empty before; fine where 1 to 6 do not refuse it, and then these are its neighbours.
fn draw(n: usize, bonds: &[u8], near: &mut [u64]) -> Sketch
    requires { near.old ≡ no_row }
    ensures { Sketched n bonds.now result.fine result.reached near.new
        × (result.fine ≡ true → drawn_reply n bonds.now ≡ read tt) }
{
    if is_outside(ATOMS, n) || bonds.len() % 2 != 0 || bonds.len() > BYTES {
        return Sketch {
            fine: false,
            reached: 0,
        };
    }
    let s = bonding::sketched(n, bonds, near);
    let plain = bonding::is_plain(n, bonds.len() as u64, near);
    Sketch {
        fine: s.fine && plain,
        reached: s.reached,
    }
}

// Refusals 1 to 6 of a block, and in what is lent its neighbours; all sets are empty where it is refused.
pub fn drawn(n: usize, bonds: &[u8], near: &mut Neighbours) -> Result<(), Refusal>
    ensures reply { result ≡ as_result (drawn_reply n bonds.now) }
    ensures near { near.new ≡ drawn_near n bonds.now }
{
    *near = [0u64; ATOMS];
    let s = draw(n, bonds, near);
    if !s.fine {
        *near = [0u64; ATOMS];
        return Err(refusal(n, bonds));
    }
    Ok(())
}

// Whether a block is fine; then its neighbours are in what is lent, empty before.
fn admit(n: usize, bonds: &[u8], near: &mut [u64]) -> bool
    requires { near.old ≡ no_row }
    ensures { Admitted n bonds.now result near.new }
{
    let s = draw(n, bonds, near);
    if !s.fine {
        return false;
    }
    if s.reached == first_atoms(n) {
        return true;
    }
    search::connected(near, n)
}

// The reply to a block, and in what is lent its neighbours; all sets are empty where it is refused.
pub fn neighbours(n: usize, bonds: &[u8], near: &mut Neighbours) -> Result<(), Refusal>
    ensures reply { result ≡ as_result (block_reply n bonds.now) }
    ensures near { near.new ≡ opened_near n bonds.now }
{
    *near = [0u64; ATOMS];
    if admit(n, bonds, near) {
        return Ok(());
    }
    *near = [0u64; ATOMS];
    Err(refusal(n, bonds))
}

// Whether a block is refused, with which number and where: the bond's number from 1, or 0.
pub fn check(n: usize, bonds: &[u8]) -> Result<(), Refusal>
    ensures { result ≡ as_result (block_reply n bonds.now) }
{
    let mut near = [0u64; ATOMS];
    if admit(n, bonds, &mut near) {
        return Ok(());
    }
    Err(refusal(n, bonds))
}

// The reply to a block, and in what is lent its neighbours, half of its distances, and how far the farthest is from each atom, all 0 beyond the atoms.
// Where it is refused, all sets are empty and the others are left as they were.
pub fn table(
    n: usize,
    bonds: &[u8],
    near: &mut Neighbours,
    half: &mut Half,
    far: &mut Farthest,
) -> Result<(), Refusal>
    ensures reply { result ≡ as_result (block_reply n bonds.now) }
    ensures near { near.new ≡ opened_near n bonds.now }
    ensures half { half.new ≡ half_after n bonds.now half.old }
    ensures far { far.new ≡ far_after n bonds.now far.old }
{
    *near = [0u64; ATOMS];
    if !admit(n, bonds, near) {
        *near = [0u64; ATOMS];
        return Err(refusal(n, bonds));
    }
    *half = [0u8; PAIRS];
    search::from_all(near, n, half, far);
    Ok(())
}

// The reply to a block, and in what is lent half of its distances, all 0 beyond the atoms. A refused block changes nothing that is lent.
pub fn halved(n: usize, bonds: &[u8], half: &mut Half) -> Result<(), Refusal>
    ensures reply { result ≡ as_result (block_reply n bonds.now) }
    ensures half { half.new ≡ half_after n bonds.now half.old }
{
    let mut near = [0u64; ATOMS];
    if !admit(n, bonds, &mut near) {
        return Err(refusal(n, bonds));
    }
    let mut far = [0u8; ATOMS];
    *half = [0u8; PAIRS];
    search::from_all(&near, n, half, &mut far);
    Ok(())
}

// The distances from atom i of a block and the largest of them, or its refusal; 18 at place 0 where there is no such atom.
pub fn row(n: usize, bonds: &[u8], i: usize) -> OneRow
    ensures { result ≡ said_row (row_reply n bonds.now i) }
{
    let mut near = [0u64; ATOMS];
    if !admit(n, bonds, &mut near) {
        return OneRow {
            reply: Err(refusal(n, bonds)),
            row: [0u8; ATOMS],
            largest: 0,
        };
    }
    if is_outside(n, i) {
        return OneRow {
            reply: Err(Rule::JoinAtom.at(0)),
            row: [0u8; ATOMS],
            largest: 0,
        };
    }
    let mut row = [0u8; ATOMS];
    let ended = search::from_atom(&near, n, i, &mut row);
    OneRow {
        reply: Ok(()),
        row,
        largest: ended.last,
    }
}

// The vertex sum of an atom and what goes with it, by the row of its distances to the first n atoms, at most ATOMS, and the largest of them.
fn around_row(row: &DistanceRow, n: usize, farthest: u8) -> Vertex
    ensures { result ≡ vertex_by (min n most_atoms) (entry row.now) farthest }
{
    let m = within(n);
    let t = totals::along(row, m);
    Vertex {
        sum: t.even + t.odd,
        even: t.even,
        odd: t.odd,
        evens: t.evens,
        odds: t.odds,
        ones: t.ones,
        twos: t.twos,
        farthest: wide(farthest),
    }
}

// The distance of two atoms of a block, or its refusal; 18 at place 0 where there is no such atom.
pub fn distance(n: usize, bonds: &[u8], i: usize, j: usize) -> Result<u64, Refusal>
    ensures { result ≡ as_result (distance_reply n bonds.now i j) }
{
    let mut half = [0u8; PAIRS];
    halved(n, bonds, &mut half)?;
    if is_outside(n, i) || is_outside(n, j) {
        return Err(Rule::JoinAtom.at(0));
    }
    Ok(wide(get(&half, i, j)))
}

// The vertex sum of atom a of a block and what goes with it, or its refusal; 18 at place 0 where there is no such atom.
pub fn vertex_sums(n: usize, bonds: &[u8], a: usize) -> Result<Vertex, Refusal>
    ensures { result ≡ as_result (vertex_reply n bonds.now a) }
{
    let seen = row(n, bonds, a);
    seen.reply?;
    Ok(around_row(&seen.row, n, seen.largest))
}

// How many pairs of atoms of a block lie at each distance; all 0 where it is refused.
pub fn pair_counts(n: usize, bonds: &[u8]) -> Pairs
    ensures { result ≡ said_pairs (pairs_reply n bonds.now) }
{
    let mut half = [0u8; PAIRS];
    let reply = halved(n, bonds, &mut half);
    let Ok(()) = reply else {
        return Pairs {
            reply,
            at: [0u16; ATOMS],
        };
    };
    let at = totals::count_pairs(&half, n);
    Pairs { reply, at }
}
