// Half a table of distances: a byte for each two atoms, stored once.
#![tactic(auto)]

ghost use Rattle.std.specs.Prelude.{◌≡◌, ◌≤◌, min};
ghost use Rattle.half.specs.Half.{most_atoms, all_pairs, row_start, above_place, no_pair, pair_place, half_at, half_with, half_row, half_with_row};
ghost use Rattle.half.specs.Places.{Pair};
ghost use Rattle.half.specs.Work.{Upto};

use reply::is_outside;

// The most atoms, and how many pairs they are.
pub const ATOMS: usize = 64;

pub const PAIRS: usize = ATOMS * (ATOMS - 1) / 2;

// A byte for each two atoms: that of i < j stands at (i - 1) * (2 * ATOMS - i) / 2 + (j - i - 1).
pub type Half = [u8; PAIRS];

// What one atom has with each: that of atom j at j - 1.
pub type Line = [u8; ATOMS];

// Where the row of atom i begins.
fn start(i: usize) -> usize
    requires { (1 ≤ i) × (i ≤ most_atoms) }
    ensures { (result ≡ row_start i) × (result ≤ all_pairs) }
{
    (i - 1) * (2 * ATOMS - i) / 2
}

// The place of the pair i < j.
fn above(i: usize, j: usize) -> usize
    requires { Pair i j }
    ensures { result ≡ above_place i j }
{
    start(i) + (j - i - 1)
}

// Whether i and j are not two of the atoms.
fn no_pair(i: usize, j: usize) -> bool
    ensures { result ≡ no_pair i j }
{
    if is_outside(ATOMS, i) {
        return true;
    }
    if is_outside(ATOMS, j) {
        return true;
    }
    i == j
}

// The place of two atoms, either way round; PAIRS where they are no pair.
pub fn place(i: usize, j: usize) -> usize
    ensures { result ≡ pair_place i j }
{
    if no_pair(i, j) {
        return PAIRS;
    }
    if i < j { above(i, j) } else { above(j, i) }
}

// What a half says of two atoms, either way round; 0 where they are no pair.
pub fn get(half: &Half, i: usize, j: usize) -> u8
    ensures { result ≡ half_at half.now i j }
{
    let p = place(i, j);
    if p < PAIRS { half[p] } else { 0 }
}

// Stores what a half says of two atoms. No pair, or one that the lent bytes have no place for, changes nothing.
pub fn put(half: &mut [u8], i: usize, j: usize, d: u8)
    ensures { half.new ≡ half_with half.old i j d }
{
    let p = place(i, j);
    if p < PAIRS {
        if p < half.len() {
            half[p] = d;
        }
    }
}

// The line of atom i as far as the atoms before it: down their rows.
fn column(half: &Half, i: usize) -> Line
    requires { (1 ≤ i) × (i ≤ most_atoms) }
    ensures { Upto half.now i i result }
{
    let mut line = [0u8; ATOMS];
    let mut p = i;
    for j in 1..i {
        line[j - 1] = half[p - 2];
        p = p + (ATOMS - 1 - j);
    }
    line
}

// And the atoms behind it: along its own row.
fn along(half: &Half, i: usize, first: Line) -> Line
    requires { (1 ≤ i) × (i ≤ most_atoms) × Upto half.now i i first }
    ensures { Upto half.now i most_atoms result }
{
    let mut line = first;
    let from = start(i);
    for j in i..ATOMS {
        line[j] = half[from + (j - i)];
    }
    line
}

// The row of atom i, as a table has it; all 0 where there is no such atom.
pub fn row(half: &Half, i: usize) -> Line
    ensures { result ≡ half_row half.now i }
{
    if is_outside(ATOMS, i) {
        return [0u8; ATOMS];
    }
    let first = column(half, i);
    along(half, i, first)
}

// n, at most ATOMS.
pub fn within(n: usize) -> usize
    ensures { (result ≡ min n most_atoms) × (result ≤ most_atoms) }
{
    if n < ATOMS { n } else { ATOMS }
}

// Stores what a row of n atoms, that of atom i, has for the atoms behind it. Fewer bytes than a half, or no such atom, change nothing.
pub fn put_row(half: &mut [u8], i: usize, line: &Line, n: usize)
    ensures { half.new ≡ half_with_row half.old i line.now n }
{
    if is_outside(ATOMS, i) {
        return;
    }
    if half.len() < PAIRS {
        return;
    }
    let m = within(n);
    let mut p = start(i);
    for j in i..m {
        half[p] = line[j];
        p += 1;
    }
}
