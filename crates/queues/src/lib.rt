// Two queues at one table: a lent table of sixteen summaries of blocks, eight places for each queue.
#![tactic(auto)]

mod places;

ghost use Rattle.std.specs.Prelude.{◌≡◌, ◌≤◌};
ghost use Rattle.queues.specs.Table.{shelf_bytes, shelf_start, table_reply, emptied};
ghost use Rattle.summary.specs.Layout.{summary_bytes};
ghost use Rattle.queues.specs.Queues.{add_told, table_added, look_told, drop_told, table_dropped, compose_told};
ghost use Rattle.reply.specs.Read.{as_result};

use block::Indices;
use places::{SHELF, add_to, clear, drop_from, look_in};
use reply::{Refusal, Rule};

// Whose call it is.
#[derive(Clone, Copy, Debug, PartialEq, Eq)]
pub enum Queue {
    Day,
    Night,
}

// The bytes of the table; later ones stay.
pub const TABLE: usize = SHELF + SHELF;

// Where the shelf of a queue starts.
fn start_of(queue: Queue) -> usize
    ensures { (result ≡ shelf_start summary_bytes queue) × (result ≤ shelf_bytes summary_bytes) }
{
    match queue {
        Queue::Day => 0,
        Queue::Night => SHELF,
    }
}

// Makes the table empty.
pub fn empty(table: &mut [u8]) -> Result<(), Refusal>
    ensures reply { result ≡ as_result (table_reply summary_bytes table.old) }
    ensures bytes { table.new ≡ emptied summary_bytes table.old }
{
    if table.len() < TABLE {
        return Err(Rule::ShortOutput.at(0));
    }
    clear(table);
    Ok(())
}

// Adds a block under a number to what a queue holds.
pub fn add(
    table: &mut [u8],
    queue: Queue,
    number: u16,
    n: usize,
    bonds: &[u8],
) -> Result<(), Refusal>
    ensures reply { result ≡ as_result (add_told table.old queue number n bonds.now) }
    ensures bytes { table.new ≡ table_added table.old queue number n bonds.now }
{
    if table.len() < TABLE {
        return Err(Rule::ShortOutput.at(0));
    }
    let start = start_of(queue);
    let end = start + SHELF;
    add_to(&mut table[start..end], number, n, bonds)
}

// The six fields of the block that a queue holds under a number.
pub fn look(table: &[u8], queue: Queue, number: u16) -> Result<Indices, Refusal>
    ensures { result ≡ as_result (look_told table.now queue number) }
{
    if table.len() < TABLE {
        return Err(Rule::ShortOutput.at(0));
    }
    let start = start_of(queue);
    let end = start + SHELF;
    look_in(&table[start..end], number)
}

// Drops the block that a queue holds under a number.
pub fn drop(table: &mut [u8], queue: Queue, number: u16) -> Result<(), Refusal>
    ensures reply { result ≡ as_result (drop_told table.old queue number) }
    ensures bytes { table.new ≡ table_dropped table.old queue number }
{
    if table.len() < TABLE {
        return Err(Rule::ShortOutput.at(0));
    }
    let start = start_of(queue);
    let end = start + SHELF;
    drop_from(&mut table[start..end], number)
}

// The six fields that an assembly's payload makes of the blocks that a queue holds, or its refusal, 15 to 19, 23 or 24, at the placement's number.
pub fn compose(table: &[u8], queue: Queue, xs: &[u8]) -> Result<Indices, Refusal>
    ensures { result ≡ as_result (compose_told table.now queue xs.now) }
{
    if table.len() < TABLE {
        return Err(Rule::ShortOutput.at(0));
    }
    let start = start_of(queue);
    let end = start + SHELF;
    summaries::compose(&table[start..end], xs)
}
