// Of a text: a molfile, a neighbour text or an SDF.
use lines::row::{FAR, Row, STAYS};
use lines::told;
use reply::Refusal;
use sdfile::{Piece, Span};

// A place; the first byte of the record of an SDF from there, how many it has, and where the next begins; nothing where all are done.
fn data_record(reply: Option<Piece>) -> Row {
    match reply {
        None => told::nothing(),
        Some(p) => told::entries(&[p.start as u64, p.len as u64, p.next as u64]),
    }
}

// The first byte of the value of a data item, and how many it has.
fn item(reply: Result<Span, Refusal>) -> Row {
    match reply {
        Err(r) => told::refusal(r),
        Ok(s) => told::two(s.start as u64, s.len as u64),
    }
}

// Room for the numbers of a small molecule.
const SMALL: usize = 64;

// The numbers of atoms and bonds of a molfile that is read whole.
fn whole(text: &[u8]) -> Row {
    let mut out = [STAYS as u16; SMALL];
    told::counts(wholefile::read_whole(text, &mut out))
}

// The reply to a question, which is known by its first letter.
pub(crate) fn reply_to(letter: u8, text: &[u8], row: Row) -> Row {
    match letter {
        b'm' => told::indices(letter, measuring::measure(text)),
        b'n' => told::indices(letter, measuring::measure_neighbours(text)),
        b'd' => data_record(sdfile::record(text, row.first(0, FAR))),
        b'i' => item(sdfile::item(text, b"W")),
        b'g' => whole(text),
        _ => told::unknown(),
    }
}
