// Two queues at one table, as C asks for them.
#![tactic(auto)]

ghost use Rattle.std.specs.Prelude.{◌≡◌, length};
ghost use Rattle.summary.specs.Layout.{summary_bytes};
ghost use Rattle.queues.specs.Table.{table_reply, emptied};
ghost use Rattle.queues.specs.Queues.{add_told, table_added, drop_told, table_dropped};
ghost use Rattle.judging.specs.Judging.{sheet_out};
ghost use Rattle.gathered.specs.Gathered.{sheet_told};
ghost use Rattle.calls.specs.Convention.{coded, Lent};
ghost use Rattle.calls.specs.Blocks.{sheet_for};
ghost use Rattle.queue_calls.specs.TwoQueues.{queue_for, look_list};

use calls::{give_indices, reply_code, sheet_for};
use deck_calls::written_code;
use queues::Queue;
use records::Sheet;

// The queue of a number: 0 is the day queue, anything else counts as the night queue.
fn queue_for(which: usize) -> Queue
    ensures { result ≡ queue_for which }
{
    if which == 0 {
        return Queue::Day;
    }
    Queue::Night
}

pub fn empty(table: &mut [u8]) -> u64
    ensures reply { result ≡ coded (table_reply summary_bytes table.old) }
    ensures bytes { table.new ≡ emptied summary_bytes table.old }
{
    let told = queues::empty(table);
    reply_code(told)
}

pub fn add(table: &mut [u8], queue: usize, number: u16, atoms: usize, bonds: &[u8]) -> u64
    ensures reply { result ≡ coded (add_told table.old (queue_for queue) number atoms bonds.now) }
    ensures bytes { table.new ≡ table_added table.old (queue_for queue) number atoms bonds.now }
{
    let told = queues::add(table, queue_for(queue), number, atoms, bonds);
    reply_code(told)
}

pub fn look(table: &[u8], queue: usize, number: u16, fields: &mut [u64]) -> u64
    ensures { Lent (look_list table.now (queue_for queue) number) fields.old result fields.new }
{
    let answer = queues::look(table, queue_for(queue), number);
    give_indices(fields, Sheet::Six, answer)
}

pub fn drop(table: &mut [u8], queue: usize, number: u16) -> u64
    ensures reply { result ≡ coded (drop_told table.old (queue_for queue) number) }
    ensures bytes { table.new ≡ table_dropped table.old (queue_for queue) number }
{
    let told = queues::drop(table, queue_for(queue), number);
    reply_code(told)
}

pub fn compose(table: &[u8], queue: usize, kind: usize, assembly: &[u8], out: &mut [u8]) -> u64
    ensures reply { result ≡ coded (sheet_told table.now (queue_for queue) (sheet_for kind)
        assembly.now (length out.old)) }
    ensures bytes { out.new ≡ sheet_out (sheet_for kind) out.old
        (sheet_told table.now (queue_for queue) (sheet_for kind) assembly.now (length out.old)) }
{
    let written = gathered::compose(table, queue_for(queue), sheet_for(kind), assembly, out);
    written_code(written)
}
