// What a program printed, judged; the records and data items of an SDF.
ghost use Rattle.std.specs.Prelude.{◌≡◌};
ghost use Rattle.calls.specs.Convention.{Lent};
ghost use Rattle.claim_calls.specs.Spans.{item_list, record_list};
ghost use Rattle.claims.specs.Molecules.{block_claims_reply, deck_claims_reply};
ghost use Rattle.deck_calls.specs.Replies.{verdict_code};
ghost use Rattle.judging.specs.Judging.{said_verdict};

#[unsafe(no_mangle)]
pub extern "C" fn tteuyomal_judge_claims(deck: &[u8], claims: &[u8]) -> u64
    ensures { result ≡ verdict_code (said_verdict (deck_claims_reply deck.now claims.now)) }
{
    tteuyomal::claims_printed::tteuyomal_judge_claims(deck, claims)
}

#[unsafe(no_mangle)]
pub extern "C" fn tteuyomal_judge_block(atoms: usize, bonds: &[u8], claims: &[u8]) -> u64
    ensures { result ≡ verdict_code (said_verdict (block_claims_reply atoms bonds.now claims.now)) }
{
    tteuyomal::claims_printed::tteuyomal_judge_block(atoms, bonds, claims)
}

#[unsafe(no_mangle)]
pub extern "C" fn tteuyomal_sdf_record(text: &[u8], from: usize, span: &mut [u64]) -> u64
    ensures { Lent (record_list text.now from) span.old result span.new }
{
    tteuyomal::claims_printed::tteuyomal_sdf_record(text, from, span)
}

#[unsafe(no_mangle)]
pub extern "C" fn tteuyomal_sdf_item(text: &[u8], name: &[u8], span: &mut [u64]) -> u64
    ensures { Lent (item_list text.now name.now) span.old result span.new }
{
    tteuyomal::claims_printed::tteuyomal_sdf_item(text, name, span)
}
