// The values of a block's two polynomials.
use lines::row::Row;
use lines::told;
use poly::Values;

// What the least f64 above 1 has more.
const NEXT: f64 = 2.220446049250313e-16;

fn float(row: Row, i: usize) -> f64 {
    (row.at(i) % 4294967296) as u32 as f64
}

// A fraction, whose two numbers stand one after the other.
fn fraction(row: Row, i: usize, j: usize) -> f64 {
    float(row, i) / float(row, j)
}

// Where the polynomials are asked for: at a fraction, at minus that, or at what is next above 1.
fn x_of(letter: u8, row: Row) -> f64 {
    let x = fraction(row, 0, 1);
    match letter {
        b'm' => -x,
        b'n' => x + NEXT,
        _ => x,
    }
}

// The even and the odd value are the second fraction of the line and the third.
fn are(v: Values, row: Row) -> bool {
    let even = fraction(row, 2, 3);
    let odd = fraction(row, 4, 5);
    v.even == even && v.odd == odd && row.count == 6
}

pub(crate) fn right(letter: u8, n: usize, bonds: &[u8], row: Row) -> bool {
    let x = x_of(letter, row);
    match poly::polynomial(n, bonds, x) {
        Err(r) => row.says(told::refusal(r)),
        Ok(v) => are(v, row),
    }
}
