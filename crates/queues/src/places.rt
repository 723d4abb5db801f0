// A shelf: one queue's eight places, a summary each. A place is empty where its number is 0.
ghost use Rattle.std.specs.Prelude.{◌≡◌, ◌+◌, ◌≤◌, ◌<◌, length};
ghost use Rattle.std.proofs.lemmas.List.Edits.{sets};
ghost use Rattle.reply.specs.Read.{refusal, as_result};
ghost use Rattle.summary.specs.Layout.{summary_bytes, stored_fields};
ghost use Rattle.block.specs.Block.{block_reply};
ghost use Rattle.queues.specs.Shelf.{places, is_held, place_holding, zero_number, room_reply, add_reply, added, look_reply, drop_reply, dropped};
ghost use Rattle.queues.specs.Table.{shelf_bytes, table_bytes, zeroed};
ghost use Rattle.queues.specs.Queues.{stored_block};
ghost use Rattle.queues.specs.Work.{first_of, filled_in};

use super::TABLE;
use block::Indices;
use filling::fill;
use records::le16_at;
use reply::{Refusal, Rule};
use summary::SUMMARY;

pub(crate) const PLACES: usize = 8;

pub(crate) const SHELF: usize = SUMMARY * PLACES;

// The first place that has a number; PLACES where none has it.
pub(crate) fn place_of(s: &[u8], number: u16) -> usize
    ensures { (result ≡ place_holding summary_bytes s.now number) × (result ≤ places) }
{
    for k in 0..PLACES {
        if le16_at(s, SUMMARY * k) == number {
            return k;
        }
    }
    PLACES
}

// Whether k, where the search for a number ended, is a place that has it: 0 is no block's.
pub(crate) fn is_held(number: u16, k: usize) -> bool
    ensures { result ≡ is_held number k }
{
    number != 0 && k < PLACES
}

// Refusals 14, 29 and 28 of a number that is to be added, where k is the first empty place.
pub(crate) fn room_reply(s: &[u8], number: u16, k: usize) -> Result<(), Refusal>
    requires { k ≡ place_holding summary_bytes s.now 0 }
    ensures { result ≡ as_result (room_reply summary_bytes s.now number) }
{
    if number == 0 {
        return Err(Rule::BlockNumber.at(0));
    }
    if is_held(number, place_of(s, number)) {
        return Err(Rule::QueueHolds.at(0));
    }
    if k < PLACES {
        return Ok(());
    }
    Err(Rule::QueueFull.at(0))
}

// The reply to a block whose number is refused: its own refusal comes first.
fn not_added(n: usize, bonds: &[u8], room: Refusal) -> Result<(), Refusal>
    ensures { result ≡ as_result (first_of (block_reply n bonds.now) room) }
{
    block::check(n, bonds)?;
    Err(room)
}

// Fills the first empty place, k.
fn fill_in(s: &mut [u8], k: usize, number: u16, n: usize, bonds: &[u8]) -> Result<(), Refusal>
    requires { (length s.old ≡ shelf_bytes summary_bytes) × (k ≡ place_holding summary_bytes s.old 0) × (k < places) }
    ensures reply { result ≡ as_result (block_reply n bonds.now) }
    ensures bytes { s.new ≡ filled_in s.old number n bonds.now }
{
    let start = SUMMARY * k;
    let end = start + SUMMARY;
    fill(number, n, bonds, &mut s[start..end])
}

// Adds a block under a number.
pub(crate) fn add_to(s: &mut [u8], number: u16, n: usize, bonds: &[u8]) -> Result<(), Refusal>
    requires { length s.old ≡ shelf_bytes summary_bytes }
    ensures reply { result ≡ as_result (add_reply summary_bytes s.old number (block_reply n bonds.now)) }
    ensures bytes { s.new ≡ added summary_bytes s.old number (block_reply n bonds.now)
        (stored_block number n bonds.now) }
{
    let k = place_of(s, 0);
    match room_reply(s, number, k) {
        Err(refusal) => not_added(n, bonds, refusal),
        Ok(()) => fill_in(s, k, number, n, bonds),
    }
}

// The fields of the block that has a number.
pub(crate) fn look_in(s: &[u8], number: u16) -> Result<Indices, Refusal>
    requires { length s.now ≡ shelf_bytes summary_bytes }
    ensures { result ≡ as_result (look_reply summary_bytes s.now stored_fields number) }
{
    let k = place_of(s, number);
    if !is_held(number, k) {
        return Err(Rule::QueueLacks.at(0));
    }
    let start = SUMMARY * k;
    let end = start + SUMMARY;
    Ok(summary::fields(&s[start..end]))
}

// Sets the number at a place to 0.
fn free(s: &mut [u8], at: usize)
    requires { at + 2 ≤ length s.old }
    ensures { s.new ≡ sets s.old at zero_number }
{
    s[at] = 0;
    s[at + 1] = 0;
}

// Drops the block that has a number.
pub(crate) fn drop_from(s: &mut [u8], number: u16) -> Result<(), Refusal>
    requires { length s.old ≡ shelf_bytes summary_bytes }
    ensures reply { result ≡ as_result (drop_reply summary_bytes s.old number) }
    ensures bytes { s.new ≡ dropped summary_bytes s.old number }
{
    let k = place_of(s, number);
    if !is_held(number, k) {
        return Err(Rule::QueueLacks.at(0));
    }
    free(s, SUMMARY * k);
    Ok(())
}

// Sets the bytes of the table to 0.
pub(crate) fn clear(t: &mut [u8])
    requires { table_bytes summary_bytes ≤ length t.old }
    ensures { t.new ≡ zeroed summary_bytes t.old }
{
    for k in 0..TABLE {
        t[k] = 0;
    }
}
