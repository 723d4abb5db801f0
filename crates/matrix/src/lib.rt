// The distance matrix of a block, made row by row by a search from each atom and handed over by value: the plain way to the indices, beside those that keep
// half of the distances or none. The program of the documents' numbers asks both ways.
#![tactic(auto)]

ghost use Rattle.std.specs.Prelude.{◌≡◌, ◌≤◌, min};
ghost use Rattle.block.specs.Block.{most_atoms};
ghost use Rattle.block.specs.Index.{indices_reply};
ghost use Rattle.block.specs.Rows.{rows_of, far_after};
ghost use Rattle.matrix.specs.Matrix.{matrix_indices};
ghost use Rattle.matrix.specs.Work.{LineOf};
ghost use Rattle.reply.specs.Read.{as_result};

use block::{ATOMS, DistanceRow, Farthest, Indices};
use half::within;
use reply::{Refusal, larger, wide};

// The distances of a block: those from atom i are row i - 1, and that to atom j stands there at j - 1; 0 beyond the atoms.
pub type DistanceMatrix = [DistanceRow; ATOMS];

// What the first entries of a row add up to: all of them and the odd ones; how many are 3; and the largest.
#[derive(Clone, Copy)]
struct Line {
    pub all: u64,
    pub odd: u64,
    pub threes: u64,
    pub largest: u64,
}

// The first k entries of a row.
fn along(row: &DistanceRow, k: usize) -> Line
    requires { k ≤ most_atoms }
    ensures { LineOf row.now k result.all result.odd result.threes result.largest }
{
    let mut all: u64 = 0;
    let mut odd: u64 = 0;
    let mut threes: u64 = 0;
    let mut largest: u64 = 0;
    for j in 0..k {
        let d = wide(row[j]);
        all += d;
        odd += d * (d % 2);
        threes += (d == 3) as u64;
        largest = larger(largest, d);
    }
    Line {
        all,
        odd,
        threes,
        largest,
    }
}

// The distances of a block, row by row by a search from each atom, all 0 where it is refused (`block::check` says the refusal); and in what is lent the
// largest of each row, 0 beyond the atoms. A refused block changes nothing that is lent.
pub fn rows(n: usize, bonds: &[u8], far: &mut Farthest) -> DistanceMatrix
    ensures rows { result ≡ rows_of n bonds.now }
    ensures far { far.new ≡ far_after n bonds.now far.old }
{
    let mut rows = [[0u8; ATOMS]; ATOMS];
    let mut deep = [0u8; ATOMS];
    for i in 0..ATOMS {
        let seen = block::row(n, bonds, i + 1);
        let row = seen.row;
        rows[i] = row;
        deep[i] = seen.largest;
    }
    if block::check(n, bonds).is_ok() {
        *far = deep;
    }
    rows
}

// The indices that a matrix says of its first n atoms, at most ATOMS: each pair is read in the row of the greater atom.
pub fn sums(rows: DistanceMatrix, n: usize) -> Indices
    ensures { result ≡ matrix_indices rows (min n most_atoms) }
{
    let m = within(n);
    let mut w: u64 = 0;
    let mut odd: u64 = 0;
    let mut threes: u64 = 0;
    let mut largest: u64 = 0;
    for i in 0..m {
        let row = rows[i];
        let line = along(&row, i);
        w += line.all;
        odd += line.odd;
        threes += line.threes;
        largest = larger(largest, line.largest);
    }
    Indices {
        atoms: m as u64,
        w,
        even: w - odd,
        odd,
        polarity: threes,
        largest,
    }
}

// The indices of a block by its matrix, or its refusal.
pub fn measure(n: usize, bonds: &[u8]) -> Result<Indices, Refusal>
    ensures { result ≡ as_result (indices_reply n bonds.now) }
{
    block::check(n, bonds)?;
    let mut far = [0u8; ATOMS];
    let matrix = rows(n, bonds, &mut far);
    Ok(sums(matrix, n))
}
