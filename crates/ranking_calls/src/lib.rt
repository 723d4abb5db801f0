// The best products of a library as C asks for them.
#![tactic(auto)]

ghost use Rattle.std.specs.Prelude.{◌≡◌};
ghost use Rattle.library.specs.Values.{values_reply};
ghost use Rattle.calls.specs.Convention.{coded, then_nine};
ghost use Rattle.ranking_calls.specs.Ranks.{wants_greatest, best_for, Ranks};

use calls::{code_of, give_number};
use library::values;

// Whether the greatest are wanted: any number but 0 says so.
fn wants(greatest: usize) -> bool
    ensures { result ≡ wants_greatest greatest }
{
    if greatest == 0 {
        return false;
    }
    true
}

// What is said where no number is lent for how many are held.
fn unlent(deck: &[u8], field: usize) -> u64
    ensures { result ≡ coded (then_nine (values_reply deck.now field 0 1)) }
{
    let mut none = [0u64; 1];
    let told = values(deck, field, 0, &mut none);
    match told {
        Err(r) => code_of(r),
        Ok(_) => 9,
    }
}

// The best products of a library deck by one field: each product is put into the lent entries, of which as many are held as `held` says. That number is read before and
// written after; where it is not lent, no entry is.
pub fn best(
    deck: &[u8],
    field: usize,
    greatest: usize,
    tag: u64,
    best: &mut [u64],
    held: &mut [u64],
) -> u64
    ensures { Ranks (best_for deck.now field greatest tag best.old held.old) best.old held.old result
        best.new held.new }
{
    if held.len() < 1 {
        return unlent(deck, field);
    }
    let many = held[0] as usize;
    let told = ranking::best(deck, field, wants(greatest), tag, best, many);
    give_number(held, told)
}
