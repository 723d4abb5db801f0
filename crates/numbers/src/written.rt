// A block's molfile and its neighbour text, each read and measured again.
use block::Indices;
use lines::row::Row;
use lines::told;
use reply::Refusal;

// Room for a text of a small block.
const TEXT: usize = 1024;

// The text's length is that of the line, and what is measured of it is what is measured of the block.
fn same(length: u64, again: Result<Indices, Refusal>, n: usize, bonds: &[u8], row: Row) -> bool {
    let own = reach::measure(n, bonds);
    row.says(told::one(length)) && told::indices(b'q', own).says(told::indices(b'q', again))
}

pub(crate) fn molfile(n: usize, bonds: &[u8], row: Row) -> bool {
    let mut text = [0u8; TEXT];
    match molwriter::write(n, bonds, &mut text) {
        Err(r) => row.says(told::refusal(r)),
        Ok(k) => {
            let again = measuring::measure(records::part(&text, 0, k as usize));
            same(k, again, n, bonds, row)
        }
    }
}

pub(crate) fn neighbours(n: usize, bonds: &[u8], row: Row) -> bool {
    let mut text = [0u8; TEXT];
    match neighbours::write(n, bonds, &mut text) {
        Err(r) => row.says(told::refusal(r)),
        Ok(k) => {
            let again = measuring::measure_neighbours(records::part(&text, 0, k as usize));
            same(k, again, n, bonds, row)
        }
    }
}
