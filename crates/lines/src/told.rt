// Replies as rows of numbers.
use crate::row::{MOST, Row};
use block::{Indices, OneRow, Vertex};
use reply::{Counts, Refusal, wide};

pub fn nothing() -> Row {
    Row::none()
}

// The numbers of a lent buffer.
pub fn entries(xs: &[u64]) -> Row {
    let mut values = [0u64; MOST];
    let count = xs.len().min(MOST);
    for i in 0..count {
        values[i] = xs[i];
    }
    Row {
        refused: false,
        asked: 0,
        count,
        values,
    }
}

// The same of bytes.
pub fn bytes(xs: &[u8]) -> Row {
    let mut values = [0u64; MOST];
    let count = xs.len().min(MOST);
    for i in 0..count {
        values[i] = wide(xs[i]);
    }
    Row {
        refused: false,
        asked: 0,
        count,
        values,
    }
}

pub fn one(x: u64) -> Row {
    entries(&[x])
}

pub fn two(x: u64, y: u64) -> Row {
    entries(&[x, y])
}

pub fn refusal(r: Refusal) -> Row {
    let mut row = two(r.number as u64, r.place as u64);
    row.refused = true;
    row
}

pub fn number(reply: Result<u64, Refusal>) -> Row {
    match reply {
        Err(r) => refusal(r),
        Ok(x) => one(x),
    }
}

pub fn counts(reply: Result<Counts, Refusal>) -> Row {
    match reply {
        Err(r) => refusal(r),
        Ok(x) => two(x.atoms as u64, x.bonds as u64),
    }
}

// What no line says: the reply to a question that nobody knows.
pub fn unknown() -> Row {
    refusal(Refusal {
        number: 0,
        place: 0,
    })
}

// Six fields, or the first five, or the sixth alone.
fn of_fields(letter: u8, x: Indices) -> Row {
    let fields = [x.atoms, x.w, x.even, x.odd, x.polarity, x.largest];
    match letter {
        b'l' => one(x.largest),
        b's' | b'p' | b'q' => entries(&fields),
        _ => entries(&fields[..5]),
    }
}

// The fields that a question asks for, which is known by its first letter.
pub fn indices(letter: u8, m: Result<Indices, Refusal>) -> Row {
    match m {
        Err(r) => refusal(r),
        Ok(x) => of_fields(letter, x),
    }
}

// Nothing, or refused.
pub fn of_reply(reply: Result<(), Refusal>) -> Row {
    match reply {
        Err(r) => refusal(r),
        Ok(()) => nothing(),
    }
}

pub fn around(a: Result<Vertex, Refusal>) -> Row {
    match a {
        Err(r) => refusal(r),
        Ok(x) => { entries(&[x.sum, x.even, x.odd, x.evens, x.odds, x.ones, x.twos]) }
    }
}

pub fn farthest(seen: OneRow) -> Row {
    match seen.reply {
        Err(r) => refusal(r),
        Ok(()) => one(wide(seen.largest)),
    }
}
