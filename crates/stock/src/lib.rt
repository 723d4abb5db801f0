// What is kept of a library: its core, and the arms of its candidates. Each block is opened once for each time that it is named, but not again where the
// next candidate names it again.
#![tactic(auto)]

ghost use Rattle.std.specs.Prelude.{◌≡◌, ◌<◌, take};
ghost use Rattle.arms.specs.Arms.{opened_of};
ghost use Rattle.catalogue.specs.Library.{most_sites};
ghost use Rattle.stock.specs.Stock.{Holds, arm_at, atoms_of, core_at, arms_at, all_arms, arm_among, arms_among};

use arms::{Arm, ArmRow, Core, NO_ARM, SUMMARY, arm_in, arm_row, core_in, open_in, row_arm};
use assembly::{BlockTable, bonds_part, find_block};
use catalogue::{CANDIDATE, CANDIDATES, SITES, Site};
use records::{byte_at, le16_at};

// The rows of all arms: those of each site one after the other, a place for each candidate that a site may have.
pub const PLACES: usize = SITES * CANDIDATES;

pub type ArmRows = [ArmRow; PLACES];

// No block has this number: they are of 16 bits.
const NO_NUMBER: usize = 65536;

// The atoms of the sites.
pub fn atoms_of(sites: [Site; SITES]) -> [u8; SITES]
    ensures { result ≡ atoms_of sites }
{
    let mut atoms = [0u8; SITES];
    for k in 0..SITES {
        let s = sites[k];
        atoms[k] = s.atom;
    }
    atoms
}

// The block of a number opened in a place, unless the place holds it.
fn hold(
    d: &[u8],
    blocks: BlockTable,
    count: usize,
    number: u16,
    held: &mut usize,
    place: &mut [u8; SUMMARY],
)
    requires { Holds d.now (take count blocks) held.old place.old }
    ensures held { held.new ≡ number }
    ensures place { place.new ≡ opened_of d.now (take count blocks) number }
{
    let x = number as usize;
    if *held == x {
        return;
    }
    *held = x;
    let b = find_block(blocks, count, x);
    let n = b.atoms as usize;
    let bonds = bonds_part(d, b);
    open_in(b.number, n, bonds, place);
}

// The core of a library whose payload and sites these are.
pub fn core_at(d: &[u8], blocks: BlockTable, count: usize, xs: &[u8], sites: [Site; SITES]) -> Core
    ensures { result ≡ core_at d.now (take count blocks) xs.now sites }
{
    let mut place = [0u8; SUMMARY];
    let mut held: usize = NO_NUMBER;
    hold(d, blocks, count, le16_at(xs, 0), &mut held, &mut place);
    core_in(&place, atoms_of(sites))
}

// Of a site's candidate of an index, by a place that then holds its block; none where the site has no such candidate, or stands past the payload.
fn held_arm(
    d: &[u8],
    blocks: BlockTable,
    count: usize,
    xs: &[u8],
    s: Site,
    j: usize,
    held: &mut usize,
    place: &mut [u8; SUMMARY],
) -> Arm
    requires { Holds d.now (take count blocks) held.old place.old }
    ensures arm { result ≡ arm_at d.now (take count blocks) xs.now s j }
    ensures place { Holds d.now (take count blocks) held.new place.new }
{
    if xs.len() < s.first {
        return NO_ARM;
    }
    if (s.many as usize) <= j {
        return NO_ARM;
    }
    let p = s.first + CANDIDATE * j;
    let number = le16_at(xs, p);
    hold(d, blocks, count, number, held, place);
    arm_in(place, byte_at(xs, p + 2) as usize)
}

// The arms of a choice, one for each site.
pub fn arms_at(
    d: &[u8],
    blocks: BlockTable,
    count: usize,
    xs: &[u8],
    sites: [Site; SITES],
    digits: [usize; SITES],
) -> [Arm; SITES]
    ensures { result ≡ arms_at d.now (take count blocks) xs.now sites digits }
{
    let mut arms = [NO_ARM; SITES];
    let mut place = [0u8; SUMMARY];
    let mut held: usize = NO_NUMBER;
    for k in 0..SITES {
        let s = sites[k];
        let arm = held_arm(d, blocks, count, xs, s, digits[k], &mut held, &mut place);
        arms[k] = arm;
    }
    arms
}

// All arms of a library.
pub fn all_arms(
    d: &[u8],
    blocks: BlockTable,
    count: usize,
    xs: &[u8],
    sites: [Site; SITES],
) -> ArmRows
    ensures { result ≡ all_arms d.now (take count blocks) xs.now sites }
{
    let mut all = [[0u64; 14]; PLACES];
    let mut place = [0u8; SUMMARY];
    let mut held: usize = NO_NUMBER;
    for i in 0..PLACES {
        let s = sites[i / CANDIDATES];
        let j = i % CANDIDATES;
        all[i] = arm_row(held_arm(d, blocks, count, xs, s, j, &mut held, &mut place));
    }
    all
}

// The arm of an index at site k, among all; none where no site has so many.
fn arm_among(all: &ArmRows, k: usize, j: usize) -> Arm
    requires { k < most_sites }
    ensures { result ≡ arm_among all.now k j }
{
    if CANDIDATES <= j {
        return NO_ARM;
    }
    row_arm(all[CANDIDATES * k + j])
}

// The arms of a choice, one for each site, among all.
pub fn arms_among(all: &ArmRows, digits: [usize; SITES]) -> [Arm; SITES]
    ensures { result ≡ arms_among all.now digits }
{
    let mut arms = [NO_ARM; SITES];
    for k in 0..SITES {
        let arm = arm_among(all, k, digits[k]);
        arms[k] = arm;
    }
    arms
}
