// Two queues at one table.
ghost use Rattle.std.specs.Prelude.{length, ◌≡◌};
ghost use Rattle.calls.specs.Blocks.{sheet_for};
ghost use Rattle.calls.specs.Convention.{Lent, coded};
ghost use Rattle.gathered.specs.Gathered.{sheet_told};
ghost use Rattle.judging.specs.Judging.{sheet_out};
ghost use Rattle.queue_calls.specs.TwoQueues.{look_list, queue_for};
ghost use Rattle.queues.specs.Queues.{add_told, drop_told, table_added, table_dropped};
ghost use Rattle.queues.specs.Table.{emptied, table_reply};
ghost use Rattle.summary.specs.Layout.{summary_bytes};

#[unsafe(no_mangle)]
pub extern "C" fn tteuyomal_queue_empty(table: &mut [u8]) -> u64
    ensures reply { result ≡ coded (table_reply summary_bytes table.old) }
    ensures bytes { table.new ≡ emptied summary_bytes table.old }
{
    tteuyomal::two_queues::tteuyomal_queue_empty(table)
}

#[unsafe(no_mangle)]
pub extern "C" fn tteuyomal_queue_add(
    table: &mut [u8],
    queue: usize,
    number: u16,
    atoms: usize,
    bonds: &[u8],
) -> u64
    ensures reply { result ≡ coded (add_told table.old (queue_for queue) number atoms bonds.now) }
    ensures bytes { table.new ≡ table_added table.old (queue_for queue) number atoms bonds.now }
{
    tteuyomal::two_queues::tteuyomal_queue_add(table, queue, number, atoms, bonds)
}

#[unsafe(no_mangle)]
pub extern "C" fn tteuyomal_queue_look(
    table: &[u8],
    queue: usize,
    number: u16,
    fields: &mut [u64],
) -> u64
    ensures { Lent (look_list table.now (queue_for queue) number) fields.old result fields.new }
{
    tteuyomal::two_queues::tteuyomal_queue_look(table, queue, number, fields)
}

#[unsafe(no_mangle)]
pub extern "C" fn tteuyomal_queue_drop(table: &mut [u8], queue: usize, number: u16) -> u64
    ensures reply { result ≡ coded (drop_told table.old (queue_for queue) number) }
    ensures bytes { table.new ≡ table_dropped table.old (queue_for queue) number }
{
    tteuyomal::two_queues::tteuyomal_queue_drop(table, queue, number)
}

#[unsafe(no_mangle)]
pub extern "C" fn tteuyomal_queue_compose(
    table: &[u8],
    queue: usize,
    kind: usize,
    assembly: &[u8],
    out: &mut [u8],
) -> u64
    ensures reply { result ≡ coded (sheet_told table.now (queue_for queue) (sheet_for kind)
        assembly.now (length out.old)) }
    ensures bytes { out.new ≡ sheet_out (sheet_for kind) out.old
        (sheet_told table.now (queue_for queue) (sheet_for kind) assembly.now (length out.old)) }
{
    tteuyomal::two_queues::tteuyomal_queue_compose(table, queue, kind, assembly, out)
}
