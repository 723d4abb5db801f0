// What is asked of a library deck.
use block::Indices;
use lines::row::{FAR, Row, STAYS};
use lines::told;
use records::Sheet;
use reply::Refusal;

// The bytes of a sheet of kind 4.
const SHEET: usize = 44;

// The six fields of a product, or nothing where all are done.
fn product(letter: u8, reply: Result<Option<Indices>, Refusal>) -> Row {
    match reply {
        Err(r) => told::refusal(r),
        Ok(None) => told::nothing(),
        Ok(Some(x)) => told::indices(letter, Ok(x)),
    }
}

fn stepped(reply: Result<Option<usize>, Refusal>) -> Row {
    match reply {
        Err(r) => told::refusal(r),
        Ok(None) => told::nothing(),
        Ok(Some(n)) => told::one(n as u64),
    }
}

// The next position after a run into room for two sheets. A step writes the run's first sheet.
fn run(deck: &[u8], position: usize) -> Row {
    let mut ran = [0u8; 2 * SHEET];
    let mut step = [0u8; SHEET];
    let next = library::run(deck, Sheet::Six, position, &mut ran);
    let _ = library::step(deck, Sheet::Six, position, &mut step);
    if told::bytes(&step).says(told::bytes(records::part(&ran, 0, SHEET))) {
        return stepped(next);
    }
    told::unknown()
}

// The two best by a field: value, tag (always 9) and position each.
fn extremes(deck: &[u8], field: usize, greatest: bool) -> Row {
    let mut out = [STAYS; 6];
    match ranking::best(deck, field, greatest, 9, &mut out, 0) {
        Err(r) => told::refusal(r),
        Ok(_) => told::entries(&out),
    }
}

// The reply to a question, which is known by its first letter.
pub(crate) fn reply_to(letter: u8, deck: &[u8], row: Row) -> Row {
    match letter {
        b'q' => told::number(catalogue::count(deck)),
        b'p' => product(letter, library::product(deck, row.first(0, FAR))),
        b'r' => run(deck, row.first(0, FAR)),
        _ => extremes(deck, row.first(0, FAR), row.first(1, FAR) != 0),
    }
}
