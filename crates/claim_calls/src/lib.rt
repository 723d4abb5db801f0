// Claims of a molecule, and the records and data items of an SDF, as C asks for them.
#![tactic(auto)]

ghost use Rattle.std.specs.Prelude.{◌≡◌};
ghost use Rattle.judging.specs.Judging.{said_verdict};
ghost use Rattle.claims.specs.Molecules.{deck_claims_reply, block_claims_reply};
ghost use Rattle.calls.specs.Convention.{Lent};
ghost use Rattle.deck_calls.specs.Replies.{verdict_code};
ghost use Rattle.claim_calls.specs.Spans.{record_list, item_list};

use calls::{code_of, give};
use deck_calls::verdict_code;

// What C says for done: no refusal has that number.
const DONE: u64 = 254;

pub fn judge_claims(deck: &[u8], claims: &[u8]) -> u64
    ensures { result ≡ verdict_code (said_verdict (deck_claims_reply deck.now claims.now)) }
{
    let verdict = claims::of_deck(deck, claims);
    verdict_code(verdict)
}

pub fn judge_block(atoms: usize, bonds: &[u8], claims: &[u8]) -> u64
    ensures { result ≡ verdict_code (said_verdict (block_claims_reply atoms bonds.now claims.now)) }
{
    let verdict = claims::of_block(atoms, bonds, claims);
    verdict_code(verdict)
}

pub fn sdf_record(text: &[u8], from: usize, span: &mut [u64]) -> u64
    ensures { Lent (record_list text.now from) span.old result span.new }
{
    let answer = sdfile::record(text, from);
    match answer {
        None => DONE,
        Some(p) => {
            let numbers = [p.start as u64, p.len as u64, p.next as u64];
            give(span, &numbers)
        }
    }
}

pub fn sdf_item(text: &[u8], name: &[u8], span: &mut [u64]) -> u64
    ensures { Lent (item_list text.now name.now) span.old result span.new }
{
    let answer = sdfile::item(text, name);
    match answer {
        Err(r) => code_of(r),
        Ok(s) => {
            let numbers = [s.start as u64, s.len as u64];
            give(span, &numbers)
        }
    }
}
