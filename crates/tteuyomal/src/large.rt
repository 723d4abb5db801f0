// Large molecules: a deck's molecule written out, and a listed molecule held against it.
ghost use Rattle.std.specs.Prelude.{◌≡◌};
ghost use Rattle.reply.specs.Read.{as_result};
ghost use Rattle.matched.specs.Matched.{match_reply};
ghost use Rattle.whole_calls.specs.Replies.{WrittenOut, match_code};

#[unsafe(no_mangle)]
pub extern "C" fn tteuyomal_written_out(deck: &[u8], bonds: &mut [u16], counts: &mut [u64]) -> u64
    ensures { WrittenOut deck.now bonds.old counts.old result bonds.new counts.new }
{
    whole_calls::written_out(deck, bonds, counts)
}

#[unsafe(no_mangle)]
pub extern "C" fn tteuyomal_matched(
    deck: &[u8],
    atoms: usize,
    bonds: &[u16],
    matching: &[u16],
) -> u64
    ensures { result ≡ match_code (as_result (match_reply deck.now atoms bonds.now matching.now)) }
{
    whole_calls::matched(deck, atoms, bonds, matching)
}
