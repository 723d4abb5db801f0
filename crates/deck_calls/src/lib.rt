// Decks as C asks for them: judged, their sheet written or composed, the distance of two placed atoms.
#![tactic(auto)]

ghost use Rattle.std.specs.Prelude.{◌≡◌, ◌+◌, ◌*◌, ◌%◌, length};
ghost use Rattle.judging.specs.Judging.{judge_reply, said_verdict, sheet_write_reply, sheet_out};
ghost use Rattle.calls.specs.Convention.{most_place, coded, Lent};
ghost use Rattle.deck_calls.specs.Replies.{written_code, verdict_code, composed_list, placed_list};

use calls::{code_of, give_indices, give_number};
use judging::Verdict;
use records::Sheet;
use reply::Refusal;

const PLACES: usize = 72_057_594_037_927_936;

// The first wrong field as one number.
fn field_of(k: usize) -> u64
    ensures { result ≡ 255 + 256 * (k % most_place) }
{
    255 + 256 * ((k % PLACES) as u64)
}

// A verdict as one number.
pub fn verdict_code(verdict: Verdict) -> u64
    ensures { result ≡ verdict_code verdict }
{
    match verdict {
        Verdict::Refused(r) => code_of(r),
        Verdict::Accepted => 0,
        Verdict::Differs(k) => field_of(k),
    }
}

pub fn judge(deck: &[u8]) -> u64
    ensures { result ≡ verdict_code (said_verdict (judge_reply deck.now)) }
{
    let verdict = judging::judge(deck);
    verdict_code(verdict)
}

// The reply about a sheet that is to be written, as one number.
pub fn written_code(written: Result<(), Refusal>) -> u64
    ensures { result ≡ written_code written }
{
    match written {
        Err(r) => code_of(r),
        Ok(()) => 0,
    }
}

pub fn write_sheet(deck: &[u8], sheet: Sheet, out: &mut [u8]) -> u64
    ensures reply { result ≡ coded (sheet_write_reply sheet deck.now (length out.old)) }
    ensures bytes { out.new ≡ sheet_out sheet out.old (sheet_write_reply sheet deck.now (length out.old)) }
{
    let written = judging::write_sheet(deck, sheet, out);
    written_code(written)
}

pub fn compose(deck: &[u8], sheet: Sheet, fields: &mut [u64]) -> u64
    ensures { Lent (composed_list sheet deck.now) fields.old result fields.new }
{
    let answer = judging::compose(deck);
    give_indices(fields, sheet, answer)
}

pub fn placed_distance(
    deck: &[u8],
    k: usize,
    i: usize,
    l: usize,
    j: usize,
    distance: &mut [u64],
) -> u64
    ensures { Lent (placed_list deck.now k i l j) distance.old result distance.new }
{
    let answer = compose::placed_distance(deck, k, i, l, j);
    give_number(distance, answer)
}
