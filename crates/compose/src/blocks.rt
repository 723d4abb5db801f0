// The blocks of a deck, record by record, and their summaries in a lent book. A refusal leaves there what was filled before.
ghost use Rattle.std.specs.Prelude.{◌≡◌, ◌≤◌, length, take, Err};
ghost use Rattle.reply.specs.declared.Refusal.{Refusal};
ghost use Rattle.block.specs.Block.{block_reply};
ghost use Rattle.assembly.specs.Book.{bond_bytes, most_blocks};
ghost use Rattle.deck.specs.Deck.{longest_deck, block_at, block_place, block_reply_at, blocks_reply, open_reply};
ghost use Rattle.deck.specs.Said.{tabled_deck, said_deck, moved_reply};
ghost use Rattle.deck.specs.Filled.{blocks_book, open_book};
ghost use Rattle.deck.specs.Filling.{filled_book, reply_book};
ghost use Rattle.reply.specs.Read.{as_result};

use assembly::{BLOCK_HEAD, BLOCKS, BOND_BYTES, BlockAt, BlockTable, NO_BLOCK};
use deck::{DeckRead, LONGEST, Layout, deck_refused, is_unfit, second_kind};
use records::{BLOCK, HEAD, Kind, le16_at, payload_at, record_at};
use reply::{Refusal, Rule};
use summary::SUMMARY;

// Where in a block's payload its bond count stands.
const COUNT: usize = BLOCK.count as usize;

// The place of a block's refusal in a deck: the bond's first byte where the refusal has a bond's number, else the record's.
fn block_place(at: usize, r: Refusal) -> usize
    requires { (at ≤ longest_deck) × (r.place ≤ longest_deck) }
    ensures { result ≡ block_place at r }
{
    if r.place == 0 {
        return at;
    }
    at + HEAD + BLOCK_HEAD + BOND_BYTES * (r.place - 1)
}

// What the block record at a place says.
fn block_at(d: &[u8], at: usize) -> BlockAt
    requires { at ≤ longest_deck }
    ensures { result ≡ block_at d.now at }
{
    let first = at + HEAD;
    let start = first as u16;
    BlockAt {
        number: le16_at(d, first),
        start,
        atoms: le16_at(d, first + 2),
        bonds: le16_at(d, first + COUNT),
    }
}

// The summary of a block put at place i of a book, or the block's refusal. Where the book has no such place the block is only checked.
fn fill_at(d: &[u8], b: BlockAt, book: &mut [u8], i: usize) -> Result<(), Refusal>
    requires { i ≤ most_blocks }
    ensures reply { result ≡ as_result (block_reply b.atoms (bond_bytes d.now b)) }
    ensures bytes { book.new ≡ filled_book d.now book.old i b }
{
    let bonds = assembly::bonds_part(d, b);
    let start = SUMMARY * i;
    let end = start + SUMMARY;
    if book.len() < end {
        return block::check(b.atoms as usize, bonds);
    }
    filling::fill(b.number, b.atoms as usize, bonds, &mut book[start..end])
}

// A block's reply at its place in the deck.
fn block_moved(at: usize, reply: Result<(), Refusal>) -> Result<(), Refusal>
    requires { (at ≤ longest_deck) × ((r : Refusal) → reply ≡ Err r → r.place ≤ longest_deck) }
    ensures { result ≡ moved_reply (block_place at) reply }
{
    match reply {
        Ok(()) => Ok(()),
        Err(r) => Err(Refusal {
            number: r.number,
            place: block_place(at, r),
        }),
    }
}

// Refusal 14 and the block's own of the record at a place, after the first `count` blocks; its summary in the book where it is fine.
fn block_reply(
    d: &[u8],
    at: usize,
    b: BlockAt,
    blocks: BlockTable,
    count: usize,
    book: &mut [u8],
) -> Result<(), Refusal>
    requires { (count ≤ most_blocks) × (b ≡ block_at d.now at) × (at ≤ longest_deck) × (length d.now ≤ longest_deck) }
    ensures reply { result ≡ as_result (block_reply_at d.now at (take count blocks)) }
    ensures bytes { book.new ≡ reply_book d.now at (take count blocks) book.old }
{
    if is_unfit(blocks, count, b.number as usize) {
        return Err(Rule::BlockNumber.at(at));
    }
    block_moved(at, fill_at(d, b, book, count))
}

// A deck whose first `count` blocks end before the record at a place.
fn deck_at(d: &[u8], blocks: BlockTable, count: usize, at: usize) -> DeckRead
    requires { at ≤ length d.now }
    ensures { result ≡ tabled_deck d.now blocks count at }
{
    let xs = payload_at(d, at);
    let layout = Layout {
        count,
        blocks,
        assembly: at,
        placements: le16_at(xs, 0) as usize,
        sheet: at + HEAD + (le16_at(d, at) as usize),
    };
    DeckRead {
        reply: Ok(()),
        layout,
    }
}

// The blocks of a deck, up to a record of the kind `last`, and their summaries in a book, as far as it has places.
fn read_blocks(d: &[u8], last: Kind, book: &mut [u8]) -> DeckRead
    requires { length d.now ≤ longest_deck }
    ensures reply { result ≡ said_deck (blocks_reply last d.now) }
    ensures bytes { book.new ≡ blocks_book last d.now book.old }
{
    let mut blocks = [NO_BLOCK; BLOCKS];
    let mut count = 0;
    let mut next = 0;
    loop {
        let r = record_at(d, next, BLOCK, second_kind(count, last));
        let Ok(()) = r else {
            return deck_refused(r);
        };
        if le16_at(d, next + 2) != BLOCK.number {
            return deck_at(d, blocks, count, next);
        }
        let b = block_at(d, next);
        let s = block_reply(d, next, b, blocks, count, book);
        let Ok(()) = s else {
            return deck_refused(s);
        };
        blocks[count] = b;
        count += 1;
        next = next + HEAD + (le16_at(d, next) as usize);
    }
}

// What stands before a record of the kind `last`, whatever that says: refusal 20, the blocks', and 11 to 13 of that record. Each block that is taken is
// opened in a lent book, at the place of its index, as far as it has places.
pub fn open_deck(d: &[u8], last: Kind, book: &mut [u8]) -> DeckRead
    ensures reply { result ≡ said_deck (open_reply last d.now) }
    ensures bytes { book.new ≡ open_book last d.now book.old }
{
    if LONGEST < d.len() {
        return deck_refused(Err(Rule::DeckLength.at(0)));
    }
    read_blocks(d, last, book)
}
