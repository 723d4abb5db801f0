// The molecule of a deck written out, and a listed molecule held against it by a matching, as C asks for them.
#![tactic(auto)]

ghost use Rattle.std.specs.Prelude.{◌≡◌};
ghost use Rattle.reply.specs.Read.{as_result};
ghost use Rattle.matched.specs.Matched.{match_reply};
ghost use Rattle.whole_calls.specs.Replies.{WrittenOut, match_code};

use calls::{code_of, give_counts};
use deck_calls::verdict_code;
use judging::Verdict;
use matched::Match;
use reply::Refusal;

pub fn written_out(deck: &[u8], bonds: &mut [u16], counts: &mut [u64]) -> u64
    ensures { WrittenOut deck.now bonds.old counts.old result bonds.new counts.new }
{
    if counts.len() < 2 {
        let mut none = [0u16; 1];
        let lacking = whole::bonds(deck, &mut none);
        return give_counts(counts, lacking);
    }
    let answer = whole::bonds(deck, bonds);
    give_counts(counts, answer)
}

// What a matching is told, as one number.
fn match_code(reply: Result<Match, Refusal>) -> u64
    ensures { result ≡ match_code reply }
{
    match reply {
        Err(r) => code_of(r),
        Ok(Match::Same) => 0,
        Ok(Match::Differs(p)) => verdict_code(Verdict::Differs(p)),
    }
}

pub fn matched(deck: &[u8], atoms: usize, bonds: &[u16], matching: &[u16]) -> u64
    ensures { result ≡ match_code (as_result (match_reply deck.now atoms bonds.now matching.now)) }
{
    let reply = matched::check(deck, atoms, bonds, matching);
    match_code(reply)
}
