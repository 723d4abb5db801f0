// The products of a library.
ghost use Rattle.std.specs.Prelude.{suc, length};
ghost use Rattle.calls.specs.Blocks.{sheet_for};
ghost use Rattle.calls.specs.Convention.{Lent};
ghost use Rattle.library.specs.Steps.{run_of, step_out, step_reply};
ghost use Rattle.library_calls.specs.Libraries.{Walked, count_list};
ghost use Rattle.ranking_calls.specs.Ranks.{Ranks, best_for};

#[unsafe(no_mangle)]
pub extern "C" fn tteuyomal_library_count(deck: &[u8], count: &mut [u64]) -> u64
    ensures { Lent (count_list deck.now) count.old result count.new }
{
    tteuyomal::libraries::tteuyomal_library_count(deck, count)
}

#[unsafe(no_mangle)]
pub extern "C" fn tteuyomal_library_step(
    deck: &[u8],
    kind: usize,
    position: usize,
    out: &mut [u8],
    next: &mut [u64],
) -> u64
    ensures { Walked (step_reply (sheet_for kind) deck.now position (length out.old))
        (step_out (sheet_for kind) out.old (step_reply (sheet_for kind) deck.now position (length out.old)))
        (suc position) out.old next.old result out.new next.new }
{
    tteuyomal::libraries::tteuyomal_library_step(deck, kind, position, out, next)
}

#[unsafe(no_mangle)]
pub extern "C" fn tteuyomal_library_run(
    deck: &[u8],
    kind: usize,
    position: usize,
    out: &mut [u8],
    next: &mut [u64],
) -> u64
    ensures { Walked (step_reply (sheet_for kind) deck.now position (length out.old))
        (run_of (sheet_for kind) deck.now position out.old).out
        (run_of (sheet_for kind) deck.now position out.old).next out.old next.old result
        out.new next.new }
{
    tteuyomal::libraries::tteuyomal_library_run(deck, kind, position, out, next)
}

#[unsafe(no_mangle)]
pub extern "C" fn tteuyomal_library_best(
    deck: &[u8],
    field: usize,
    greatest: usize,
    tag: u64,
    best: &mut [u64],
    held: &mut [u64],
) -> u64
    ensures { Ranks (best_for deck.now field greatest tag best.old held.old) best.old held.old result
        best.new held.new }
{
    tteuyomal::libraries::tteuyomal_library_best(deck, field, greatest, tag, best, held)
}
