// Puts the documents' numbers about decks, libraries, queues and claims, a table on standard input, to the public functions, as `numbers` does those about blocks.
#![tactic(auto)]

mod decks;
mod libraries;
mod queue;
mod typed;

use lines::row::Row;
use lines::subject::Subject;
use lines::table::Table;
use lines::{input, row, table};
use std::io;

// Of a block, whose first byte is how many atoms it has.
fn block_right(letter: u8, bytes: &[u8], row: Row) -> bool {
    let n = records::byte_at(bytes, 0) as usize;
    let bonds = records::part(bytes, 1, bytes.len());
    if letter == b'q' {
        return queue::right(n, bonds, row);
    }
    row.says(typed::of_block(n, bonds, row))
}

// Whether the reply to a question, which is known by its first letter, is that of its line.
fn right(subject: Subject, letter: u8, row: Row) -> bool {
    let changed = subject.changed;
    let bytes = row::bytes_of(changed);
    let given = records::part(&bytes, 0, changed.count);
    if subject.deck {
        return row.says(decks::reply_to(letter, given, row));
    }
    block_right(letter, given, row)
}

// A line whose first letter is small asks.
fn after<R: Print>(rt: &R, table: Table, text: &[u8], line: &[u8], at: usize) -> io::Result<Table> {
    let letter = records::byte_at(line, 0);
    let row = row::row_of(line, letter);
    if letter < b'a' {
        return Ok(table.about(letter, row, at, line.len()));
    }
    table.counted(rt, text, line, right(table.subject, letter, row))
}

fn read_table<R: Print>(rt: &R, text: &[u8]) -> io::Result<Table> {
    let mut table = Table::none();
    let mut at = 0;
    while at < text.len() {
        let end = table::line_end(text, at);
        table = after(rt, table, text, records::part(text, at, end - at), at)?;
        at = end;
    }
    Ok(table)
}

// The most bytes of a table.
const ROOM: usize = 65536;

fn main(rt: HostRuntime) -> io::Result<()> {
    let mut text = [0u8; ROOM];
    let mut from = rt.reader();
    let n = input::read_full(&mut from, &mut text)?;
    let tally = read_table(&rt, &text[..n])?.tally;
    tally.print(&rt)
}
