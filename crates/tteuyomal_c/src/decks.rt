// Decks judged and composed.
ghost use Rattle.std.specs.Prelude.{length, ◌≡◌};
ghost use Rattle.calls.specs.Convention.{Lent, coded};
ghost use Rattle.deck_calls.specs.Replies.{composed_list, placed_list, verdict_code};
ghost use Rattle.judging.specs.Judging.{judge_reply, said_verdict, sheet_out, sheet_write_reply};
ghost use Rattle.records.specs.declared.Sheet.TheVariants.{Five, Six};

#[unsafe(no_mangle)]
pub extern "C" fn tteuyomal_judge(deck: &[u8]) -> u64
    ensures { result ≡ verdict_code (said_verdict (judge_reply deck.now)) }
{
    tteuyomal::decks::tteuyomal_judge(deck)
}

#[unsafe(no_mangle)]
pub extern "C" fn tteuyomal_write_sheet(deck: &[u8], out: &mut [u8]) -> u64
    ensures reply { result ≡ coded (sheet_write_reply Five deck.now (length out.old)) }
    ensures bytes { out.new ≡ sheet_out Five out.old (sheet_write_reply Five deck.now (length out.old)) }
{
    tteuyomal::decks::tteuyomal_write_sheet(deck, out)
}

#[unsafe(no_mangle)]
pub extern "C" fn tteuyomal_write_six(deck: &[u8], out: &mut [u8]) -> u64
    ensures reply { result ≡ coded (sheet_write_reply Six deck.now (length out.old)) }
    ensures bytes { out.new ≡ sheet_out Six out.old (sheet_write_reply Six deck.now (length out.old)) }
{
    tteuyomal::decks::tteuyomal_write_six(deck, out)
}

#[unsafe(no_mangle)]
pub extern "C" fn tteuyomal_compose(deck: &[u8], fields: &mut [u64]) -> u64
    ensures { Lent (composed_list Five deck.now) fields.old result fields.new }
{
    tteuyomal::decks::tteuyomal_compose(deck, fields)
}

#[unsafe(no_mangle)]
pub extern "C" fn tteuyomal_compose_six(deck: &[u8], fields: &mut [u64]) -> u64
    ensures { Lent (composed_list Six deck.now) fields.old result fields.new }
{
    tteuyomal::decks::tteuyomal_compose_six(deck, fields)
}

#[unsafe(no_mangle)]
pub extern "C" fn tteuyomal_placed_distance(
    deck: &[u8],
    k: usize,
    i: usize,
    l: usize,
    j: usize,
    distance: &mut [u64],
) -> u64
    ensures { Lent (placed_list deck.now k i l j) distance.old result distance.new }
{
    tteuyomal::decks::tteuyomal_placed_distance(deck, k, i, l, j, distance)
}
