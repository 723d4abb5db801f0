// What a deck says, over a book that is filled while its blocks are read.
ghost use Rattle.std.specs.Prelude.{◌≡◌, ◌≤◌};
ghost use Rattle.records.specs.Records.{payload_at, assembly_kind};
ghost use Rattle.assembly.specs.Placements.{most_placements, shelf_reply};
ghost use Rattle.shelf.specs.Shelf.{shelf_in};
ghost use Rattle.records.specs.Bytes.{PartOf};
ghost use Rattle.deck.specs.Deck.{longest_deck, placement_place, moved, deck_reply, block_span};
ghost use Rattle.deck.specs.Filled.{open_book};
ghost use Rattle.deck.specs.Said.{said_deck};
ghost use Rattle.deck.specs.Unfilled.{Unfilled};
ghost use Rattle.reply.specs.Read.{as_result};

use super::blocks::open_deck;
use assembly::{BLOCKS, PLACEMENT_BYTES};
use deck::{DeckRead, Form, deck_refused, payload_of, sheet_reply};
use records::{ASSEMBLY, part, payload_at};
use reply::Refusal;
use summary::SUMMARY;

// The place of an assembly's refusal in a deck: the placement's first byte, or the record's.
fn placement_place(at: usize, r: Refusal) -> usize
    requires { (at ≤ longest_deck) × (r.place ≤ most_placements) }
    ensures { result ≡ placement_place at r }
{
    at + PLACEMENT_BYTES * r.place
}

// Refusals 15 to 19, 23 and 24 of the assembly record at a place, over a book.
fn assembly_reply(d: &[u8], at: usize, book: &[u8]) -> Result<(), Refusal>
    requires { at ≤ longest_deck }
    ensures { result ≡ as_result (moved (placement_place at) (shelf_reply (shelf_in book.now) (payload_at d.now at))) }
{
    match shelf::check(book, payload_at(d, at)) {
        Ok(()) => Ok(()),
        Err(r) => Err(Refusal {
            number: r.number,
            place: placement_place(at, r),
        }),
    }
}

// What a deck says, by a lent book that is all 0 and has a place for each of its blocks.
pub(super) fn read_in(d: &[u8], form: Form, book: &mut [u8]) -> DeckRead
    requires { Unfilled d.now book.old }
    ensures reply { result ≡ said_deck (deck_reply form d.now) }
    ensures bytes { book.new ≡ open_book assembly_kind d.now book.old }
{
    let k = open_deck(d, ASSEMBLY, book);
    let first = k.reply;
    let Ok(()) = first else {
        return k;
    };
    let layout = k.layout;
    let a = assembly_reply(d, layout.assembly, book);
    let Ok(()) = a else {
        return deck_refused(a);
    };
    let s = sheet_reply(form, d, layout.sheet);
    let Ok(()) = s else {
        return deck_refused(s);
    };
    k
}

// What a deck says: record by record, each taken or refused with its place.
pub fn read_deck(d: &[u8], form: Form) -> DeckRead
    ensures { result ≡ said_deck (deck_reply form d.now) }
{
    read_in(d, form, &mut [0u8; SUMMARY * BLOCKS])
}

// The part of a deck that holds the payload of a block: empty exactly where the deck is refused in both forms or has no such block.
pub fn block_part(d: &[u8], number: usize) -> &[u8]
    ensures { PartOf d.entry (block_span d.now number).from (block_span d.now number).len result }
{
    let k = read_deck(d, Form::Composed);
    let composed = k.reply;
    let Ok(()) = composed else {
        let j = read_deck(d, Form::Judged);
        let judged = j.reply;
        let Ok(()) = judged else {
            return part(d, 0, 0);
        };
        let layout = j.layout;
        let blocks = layout.blocks;
        return payload_of(d, blocks, layout.count, number);
    };
    let layout = k.layout;
    let blocks = layout.blocks;
    payload_of(d, blocks, layout.count, number)
}
