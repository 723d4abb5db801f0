// An assembly: its blocks and placements, and what is wrong with a placement, 17 to 19, 23 and 24. Crate shelf tests all of them over a book.
#![tactic(auto)]

ghost use Rattle.std.specs.Prelude.{◌≡◌, ◌&&◌, cond, ◌+◌, ◌*◌, ◌^◌, ◌<◌, ◌≤◌, eqb, length, take};
ghost use Rattle.records.specs.Bytes.{PartOf, byte_at, le16};
ghost use Rattle.records.specs.Records.{block_kind, assembly_kind};
ghost use Rattle.assembly.specs.Book.{find, is_numbered};
ghost use Rattle.assembly.specs.Placements.{placement_at, joins_on, join_on, is_full, first_fault, parent_fault, join_fault};
ghost use Rattle.assembly.specs.Work.{own_on};

use block::LIMIT;
use records::{ASSEMBLY, BLOCK, byte_at, le16_at, part};
use reply::is_outside;

// The most blocks of a book, and the most placements.
pub const BLOCKS: usize = 16;

pub const PLACEMENTS: usize = 32;

// The bytes before a block's bonds in its payload, and of a bond; those before an assembly's placements, and of a placement.
pub const BLOCK_HEAD: usize = BLOCK.fixed as usize;

pub const BOND_BYTES: usize = BLOCK.item as usize;

const ASSEMBLY_HEAD: usize = ASSEMBLY.fixed as usize;

pub const PLACEMENT_BYTES: usize = ASSEMBLY.item as usize;

// The largest number that a block can have.
const LARGEST_NUMBER: usize = u16::MAX as usize;

// Where a block stands: its number, the first byte of its payload, its atoms and its bonds.
#[derive(Clone, Copy, Debug, PartialEq, Eq)]
pub struct BlockAt {
    pub number: u16,
    pub start: u16,
    pub atoms: u16,
    pub bonds: u16,
}

// An empty place: 0 is no block's number.
pub const NO_BLOCK: BlockAt = BlockAt {
    number: 0,
    start: 0,
    atoms: 0,
    bonds: 0,
};

// The blocks of a book, as many as are counted, then empty places.
pub type BlockTable = [BlockAt; BLOCKS];

// A placement: the number of its block, the placement that it joins (from 1), that one's atom, and its own atom.
#[derive(Clone, Copy, Debug, PartialEq, Eq)]
pub struct Placement {
    pub block: u16,
    pub parent: u16,
    pub site: u8,
    pub own: u8,
}

// What an assembly asks of a block at one of its atoms: how many atoms the block has, and how many of its bonds are at this one.
#[derive(Clone, Copy, Debug, PartialEq, Eq)]
pub struct JoinSite {
    pub atoms: usize,
    pub ends: usize,
}

// Whether a block's number is the one looked for, compared in its 16 bits.
fn same_number(x: u16, number: usize) -> bool
    ensures { result ≡ eqb x number }
{
    if LARGEST_NUMBER < number {
        return false;
    }
    x == (number as u16)
}

// Which of the first `count` blocks has a number; one of no atoms where none has.
pub fn find_block(blocks: BlockTable, count: usize, number: usize) -> BlockAt
    ensures { result ≡ find (take count blocks) number }
{
    for i in 0..BLOCKS {
        if count <= i {
            return NO_BLOCK;
        }
        let b = blocks[i];
        if same_number(b.number, number) {
            return b;
        }
    }
    NO_BLOCK
}

// Whether a block that was looked for has the number: 0 is no block's.
pub fn is_numbered(b: BlockAt, number: usize) -> bool
    ensures { result ≡ is_numbered b number }
{
    if number == 0 {
        return false;
    }
    (b.number as usize) == number
}

// The part that holds a block's bonds.
pub fn bonds_part(d: &[u8], b: BlockAt) -> &[u8]
    ensures { PartOf d.entry (b.start + block_kind.fixed) (block_kind.item * b.bonds) result }
{
    let start = b.start as usize;
    if d.len() < start {
        return part(d, start, 0);
    }
    part(d, start + BLOCK_HEAD, BOND_BYTES * (b.bonds as usize))
}

// Two bytes that are there: nothing is tested between their reads.
fn two_at(xs: &[u8], at: usize) -> u16
    requires { (at < 2 ^ 63) × (at + 2 ≤ length xs.now) }
    ensures { result ≡ le16 xs.now at }
{
    let low = xs[at];
    let high = xs[at + 1];
    pair(low, high)
}

fn pair(low: u8, high: u8) -> u16
    ensures { result ≡ low + 256 * high }
{
    (low as u16) + 256 * (high as u16)
}

// The placement at an index from 0 of an assembly's payload.
pub fn placement_at(xs: &[u8], k: usize) -> Placement
    ensures { result ≡ placement_at xs.now k }
{
    if xs.len() / PLACEMENT_BYTES < k {
        return Placement {
            block: 0,
            parent: 0,
            site: 0,
            own: 0,
        };
    }
    let at = ASSEMBLY_HEAD + PLACEMENT_BYTES * k;
    if at + PLACEMENT_BYTES <= xs.len() {
        return Placement {
            block: two_at(xs, at),
            parent: two_at(xs, at + 2),
            site: xs[at + 4],
            own: xs[at + 5],
        };
    }
    Placement {
        block: le16_at(xs, at),
        parent: le16_at(xs, at + 2),
        site: byte_at(xs, at + 4),
        own: byte_at(xs, at + 5),
    }
}

// 1 where both hold.
fn one_if(x: bool, y: bool) -> usize
    ensures { (result ≡ cond (x && y) 1 0) × (result ≤ 1) }
{
    if x {
        if y {
            return 1;
        }
    }
    0
}

// Whether the join of a placement that is all there, from a byte on, is on atom a of placement number p by its parent's side.
fn is_on(xs: &[u8], at: usize, p: u16, a: u8) -> bool
    requires { at + assembly_kind.item ≤ length xs.now }
    ensures { result ≡ (eqb (le16 xs.now (at + 2)) p && eqb (byte_at xs.now (at + 4)) a) }
{
    if two_at(xs, at + 2) != p {
        return false;
    }
    xs[at + 4] == a
}

// How many of the joins at the indices 1 to `last` are on atom a of placement number p by their own side: p's own join, if it is one of them.
fn own_on(xs: &[u8], last: usize, p: u16, a: u8) -> usize
    ensures { (result ≡ own_on (join_on (placement_at xs.now)) last p a) × (result ≤ 1) }
{
    if p == 0 {
        return 0;
    }
    let k = (p as usize) - 1;
    if is_outside(last, k) {
        return 0;
    }
    one_if(true, placement_at(xs, k).own == a)
}

// How many ends these joins, which are within the bytes, have at atom a of placement number p.
fn joins_on(xs: &[u8], last: usize, p: u16, a: u8) -> usize
    requires { assembly_kind.fixed + assembly_kind.item * (last + 1) ≤ length xs.now }
    ensures { (result ≡ joins_on (join_on (placement_at xs.now)) last p a) × (result ≤ last + 1) }
{
    let mut total = own_on(xs, last, p, a);
    for k in 0..last {
        if is_on(xs, ASSEMBLY_HEAD + PLACEMENT_BYTES * (k + 1), p, a) {
            total += 1;
        }
    }
    total
}

// Whether atom a of placement number p, which has some bonds in its block, has as many as it may, before the placement at index k is joined.
fn is_full(ends: usize, xs: &[u8], k: usize, p: u16, a: u8) -> bool
    requires { assembly_kind.fixed + assembly_kind.item * k ≤ length xs.now }
    ensures { result ≡ is_full ends (join_on (placement_at xs.now)) k p a }
{
    if LIMIT <= ends {
        return true;
    }
    if k == 0 {
        return false;
    }
    LIMIT <= ends + joins_on(xs, k - 1, p, a)
}

// What is wrong with the first placement's join fields: 17, or 0.
pub fn first_fault(q: Placement) -> usize
    ensures { result ≡ first_fault q }
{
    if q.parent != 0 {
        return 17;
    }
    if q.site != 0 {
        return 17;
    }
    if q.own != 0 {
        return 17;
    }
    0
}

// What is wrong with a later placement's parent that is none of the earlier placements: 23 where it is 0, else 24.
pub fn parent_fault(parent: usize) -> usize
    ensures { result ≡ parent_fault parent }
{
    if parent == 0 {
        return 23;
    }
    24
}

// What is wrong with the join at index k, from `here` to `there`: 18, 19, or 0.
pub fn join_fault(there: JoinSite, here: JoinSite, xs: &[u8], k: usize) -> usize
    ensures { result ≡ join_fault there here (join_on (placement_at xs.now)) k }
{
    let q = placement_at(xs, k);
    if is_outside(there.atoms, q.site as usize) {
        return 18;
    }
    if is_outside(here.atoms, q.own as usize) {
        return 18;
    }
    if is_full(there.ends, xs, k, q.parent, q.site) {
        return 19;
    }
    if LIMIT <= here.ends {
        return 19;
    }
    0
}
