// The text of a block, byte by byte.
ghost use Rattle.std.specs.Prelude.{◌≡◌, cond, [], ◌∷◌, ◌≤◌, length};
ghost use Rattle.graph.specs.Graph.{Within};
ghost use Rattle.block.specs.Block.{most_atoms};
ghost use Rattle.text.specs.Text.{decimal};
ghost use Rattle.text.specs.Put.{Puts};
ghost use Rattle.adjacency.specs.Written.{is_greater, greater, listed, line, lines, text_by};
ghost use Rattle.adjacency.specs.Work.{joined_in};

use block::Neighbours;
use text::{put, put_byte, put_decimal};

// Whether j is a greater neighbour of i.
fn is_greater(near: &Neighbours, i: usize, j: usize) -> bool
    requires { Within most_atoms i × Within most_atoms j }
    ensures { result ≡ is_greater (joined_in near.now) i j }
{
    if i < j {
        let x = i - 1;
        let y = j - 1;
        return (near[x] >> y) % 2 == 1;
    }
    false
}

fn one_if_greater(near: &Neighbours, i: usize, j: usize) -> usize
    requires { Within most_atoms i × Within most_atoms j }
    ensures { result ≡ cond (is_greater (joined_in near.now) i j) 1 0 }
{
    if is_greater(near, i, j) { 1 } else { 0 }
}

// How many greater neighbours an atom has.
fn count(near: &Neighbours, n: usize, i: usize) -> usize
    requires { (n ≤ most_atoms) × Within most_atoms i }
    ensures { result ≡ length (greater (joined_in near.now) n i) }
{
    let mut k = 0;
    for j in 1..=n {
        k = k + one_if_greater(near, i, j);
    }
    k
}

// Puts a number of at most two digits.
fn number(out: &mut [u8], at: usize, v: usize) -> usize
    requires { v ≤ most_atoms }
    ensures { Puts out.old at (decimal v) out.new result }
{
    put_decimal(out, at, v as u8)
}

// Puts a blank and a number where j is a greater neighbour of i.
fn neighbour(out: &mut [u8], at: usize, near: &Neighbours, i: usize, j: usize) -> usize
    requires { Within most_atoms i × Within most_atoms j }
    ensures { Puts out.old at (listed (cond (is_greater (joined_in near.now) i j) (j ∷ []) [])) out.new result }
{
    if is_greater(near, i, j) {
        let next = put_byte(out, at, b' ');
        return number(out, next, j);
    }
    at
}

// Puts the greater neighbours of an atom.
fn neighbours(out: &mut [u8], from: usize, near: &Neighbours, n: usize, i: usize) -> usize
    requires { (n ≤ most_atoms) × Within most_atoms i }
    ensures { Puts out.old from (listed (greater (joined_in near.now) n i)) out.new result }
{
    let mut at = from;
    for j in 1..=n {
        at = neighbour(out, at, near, i, j);
    }
    at
}

// Puts the line of an atom, if it has greater neighbours.
fn line(out: &mut [u8], at: usize, near: &Neighbours, n: usize, i: usize) -> usize
    requires { (n ≤ most_atoms) × Within most_atoms i }
    ensures { Puts out.old at (line i (greater (joined_in near.now) n i)) out.new result }
{
    if count(near, n, i) == 0 {
        return at;
    }
    let a = number(out, at, i);
    let b = neighbours(out, a, near, n, i);
    put(out, b, b" 0\n")
}

// Puts the lines of all atoms.
fn lines(out: &mut [u8], from: usize, near: &Neighbours, n: usize) -> usize
    requires { n ≤ most_atoms }
    ensures { Puts out.old from (lines (joined_in near.now) n n) out.new result }
{
    let mut at = from;
    for i in 1..=n {
        at = line(out, at, near, n, i);
    }
    at
}

// Puts the whole text, as far as there is room, and answers the place past it.
pub(crate) fn text(out: &mut [u8], near: &Neighbours, n: usize) -> usize
    requires { n ≤ most_atoms }
    ensures { Puts out.old 0 (text_by (joined_in near.now) n) out.new result }
{
    let a = number(out, 0, n);
    let b = put_byte(out, a, b'\n');
    let c = lines(out, b, near, n);
    put(out, c, b"0\n")
}
