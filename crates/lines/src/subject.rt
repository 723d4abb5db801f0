// What the lines ask about: a block or a deck.
use crate::row::{ROOM, Row};

// As its own line gives it, as later lines change it, and where its line stands.
#[derive(Clone, Copy, Debug, PartialEq, Eq)]
pub struct Subject {
    pub deck: bool,
    pub given: Row,
    pub changed: Row,
    pub from: usize,
    pub len: usize,
}

// One or two bytes changed: place and value of each.
fn with_bytes(given: Row, row: Row) -> Row {
    let once = given.with(row.first(0, ROOM), row.at(1));
    if row.count < 4 {
        return once;
    }
    once.with(row.first(2, ROOM), row.at(3))
}

// The first bytes only, or zeros behind them.
fn first_bytes(changed: Row, row: Row) -> Row {
    let mut next = changed;
    next.count = row.first(0, ROOM);
    next
}

impl Subject {
    pub fn none() -> Subject {
        Subject {
            deck: false,
            given: Row::none(),
            changed: Row::none(),
            from: 0,
            len: 0,
        }
    }

    // After a line, which stands at a place: a capital says what is asked about.
    pub fn next(self, letter: u8, row: Row, from: usize, len: usize) -> Subject {
        let given = self.given;
        let changed = self.changed;
        match letter {
            b'W' => Subject {
                deck: self.deck,
                given,
                changed: with_bytes(given, row),
                from,
                len,
            },
            b'F' => Subject {
                deck: self.deck,
                given,
                changed: first_bytes(changed, row),
                from,
                len,
            },
            b'B' | b'D' => Subject {
                deck: letter == b'D',
                given: row,
                changed: row,
                from,
                len,
            },
            _ => self,
        }
    }
}
