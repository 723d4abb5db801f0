// A table that is read line by line.
ghost use Rattle.std.specs.Prelude.{◌<◌, length};

use crate::row::Row;
use crate::subject::Subject;
use crate::tally::Tally;
use std::io;

// The tally, and what the next lines ask about.
#[derive(Clone, Copy, Debug, PartialEq, Eq)]
pub struct Table {
    pub tally: Tally,
    pub subject: Subject,
}

impl Table {
    pub fn none() -> Table {
        Table {
            tally: Tally::none(),
            subject: Subject::none(),
        }
    }

    // After a line that asks nothing: one that starts with a capital says what is asked about.
    pub fn about(self, letter: u8, row: Row, at: usize, len: usize) -> Table {
        Table {
            tally: self.tally,
            subject: self.subject.next(letter, row, at, len),
        }
    }

    // After a line that asks, and was right or not. The only error is that of a write.
    pub fn counted<R: Print>(
        self,
        rt: &R,
        text: &[u8],
        line: &[u8],
        ok: bool,
    ) -> io::Result<Table> {
        let subject = self.subject;
        let name = records::part(text, subject.from, subject.len);
        let tally = self.tally.count(rt, name, line, ok)?;
        Ok(Table { tally, subject })
    }
}

// The place behind the line that starts at a place: behind its line feed, or the end of the text.
pub fn line_end(text: &[u8], from: usize) -> usize
    ensures { from < length text.now → from < result }
{
    let mut at = from;
    while at < text.len() {
        let byte = text[at];
        at += 1;
        if byte == b'\n' {
            return at;
        }
    }
    at
}
