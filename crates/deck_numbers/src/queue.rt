// A block in a queue.
use block::Indices;
use lines::row::{FAR, Row, STAYS};
use lines::told;
use queues::{Queue, TABLE};
use reply::Refusal;

// Whether a reply is refusal 30: nothing is held under that number.
fn is_missing(reply: Result<Indices, Refusal>) -> bool {
    match reply {
        Err(r) => r.number == 30,
        Ok(_) => false,
    }
}

// The payload of an assembly that places one block.
fn alone(number: u16) -> [u8; 8] {
    [1, 0, (number % 256) as u8, (number / 256) as u8, 0, 0, 0, 0]
}

// The six fields when the queue looks, and the same when it composes the block alone.
fn held(table: &[u8], number: u16, row: Row) -> bool {
    let seen = queues::look(table, Queue::Day, number);
    let xs = alone(number);
    let composed = queues::compose(table, Queue::Day, &xs);
    row.says(told::indices(b'q', seen)) && row.says(told::indices(b'q', composed))
}

// The other queue holds nothing under that number, and this one nothing once the block is dropped.
fn gone(table: &mut [u8], number: u16) -> bool {
    let other = queues::look(table, Queue::Night, number);
    let _ = queues::drop(table, Queue::Day, number);
    is_missing(other) && is_missing(queues::look(table, Queue::Day, number))
}

// A number; what the day queue is told when it adds the block under it, and then of the block.
pub(crate) fn right(n: usize, bonds: &[u8], row: Row) -> bool {
    let mut table = [STAYS as u8; TABLE];
    let number = row.first(0, FAR) as u16;
    let _ = queues::empty(&mut table);
    match queues::add(&mut table, Queue::Day, number, n, bonds) {
        Err(r) => row.says(told::refusal(r)),
        Ok(()) => held(&table, number, row) && gone(&mut table, number),
    }
}
