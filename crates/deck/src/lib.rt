// The deck: the forms that it has, what may stand where, and what is asked of one that is read. Reading it is in `compose`.
#![tactic(auto)]

ghost use Rattle.std.specs.Prelude.{◌≡◌, cond, ◌≤◌, eqb, take};
ghost use Rattle.records.specs.Bytes.{PartOf};
ghost use Rattle.records.specs.Records.{block_kind, payload_at};
ghost use Rattle.assembly.specs.Book.{find, most_blocks};
ghost use Rattle.assembly.specs.Placements.{placement_at};
ghost use Rattle.deck.specs.Deck.{end_reply, sheet_reply, payload, unfit_after};
ghost use Rattle.deck.specs.Molecule.{placed_in};
ghost use Rattle.deck.specs.Placed.{deck_of, is_missing};
ghost use Rattle.deck.specs.Said.{refused_deck};
ghost use Rattle.deck.specs.Unfilled.{heads_from};
ghost use Rattle.reply.specs.Read.{as_result};

use assembly::{
    BLOCK_HEAD, BLOCKS, BOND_BYTES, BlockAt, BlockTable, NO_BLOCK, Placement, find_block,
    is_numbered,
};
use records::{
    BLOCK, HEAD, Kind, SHEET_OF_FIVE, SHEET_OF_SIX, le16_at, part, payload_at, record_at,
};
use reply::{Refusal, Rule, is_outside};

// The most bytes of a deck.
pub const LONGEST: usize = 32768;

// A deck to be composed has no sheet, a deck to be judged has one.
#[derive(Clone, Copy, Debug, PartialEq, Eq)]
pub enum Form {
    Composed,
    Judged,
}

// What stands where: the blocks, the assembly's first byte, how many placements it has, and the first byte after it.
#[derive(Clone, Copy, Debug, PartialEq, Eq)]
pub struct Layout {
    pub count: usize,
    pub blocks: BlockTable,
    pub assembly: usize,
    pub placements: usize,
    pub sheet: usize,
}

// A deck is fine or refused; where it is refused, the layout is empty.
#[derive(Clone, Copy, Debug, PartialEq, Eq)]
pub struct DeckRead {
    pub reply: Result<(), Refusal>,
    pub layout: Layout,
}

// A refusal, with an empty layout.
pub fn deck_refused(reply: Result<(), Refusal>) -> DeckRead
    ensures { result ≡ refused_deck reply }
{
    let blocks = [NO_BLOCK; BLOCKS];
    let layout = Layout {
        count: 0,
        blocks,
        assembly: 0,
        placements: 0,
        sheet: 0,
    };
    DeckRead { reply, layout }
}

// How many records of blocks a deck begins with, by their heads alone, at most as many as a deck may have: no more of them are read.
pub fn heads(d: &[u8]) -> usize
    ensures { (result ≡ heads_from most_blocks d.now 0) × (result ≤ most_blocks) }
{
    let mut at = 0;
    for i in 0..BLOCKS {
        if le16_at(d, at + 2) != BLOCK.number {
            return i;
        }
        at = at + HEAD + (le16_at(d, at) as usize);
    }
    BLOCKS
}

// Whether a block's number is 0 or was used before, or there is no room for a block.
pub fn is_unfit(blocks: BlockTable, count: usize, number: usize) -> bool
    ensures { result ≡ unfit_after (take count blocks) number }
{
    if number == 0 {
        return true;
    }
    if is_numbered(find_block(blocks, count, number), number) {
        return true;
    }
    BLOCKS <= count
}

// The second kind that may stand after `count` blocks.
pub fn second_kind(count: usize, last: Kind) -> Kind
    ensures { result ≡ cond (eqb count 0) block_kind last }
{
    if count == 0 {
        return BLOCK;
    }
    last
}

// After the last record nothing follows.
fn end_reply(d: &[u8], at: usize) -> Result<(), Refusal>
    ensures { result ≡ as_result (end_reply d.now at) }
{
    if at < d.len() {
        return Err(Rule::RecordCut.at(at));
    }
    Ok(())
}

// What follows the assembly: in a deck to be judged a sheet of either kind, and then nothing.
pub fn sheet_reply(form: Form, d: &[u8], at: usize) -> Result<(), Refusal>
    ensures { result ≡ as_result (sheet_reply form d.now at) }
{
    let Form::Judged = form else {
        return end_reply(d, at);
    };
    record_at(d, at, SHEET_OF_FIVE, SHEET_OF_SIX)?;
    end_reply(d, at + HEAD + (le16_at(d, at) as usize))
}

// The placement at an index from 0 of the assembly record at a place.
pub fn placement(d: &[u8], assembly: usize, k: usize) -> Placement
    ensures { result ≡ placement_at (payload_at d.now assembly) k }
{
    let xs = payload_at(d, assembly);
    assembly::placement_at(xs, k)
}

// The payload of the block of a number among the first `count`, and nothing where there is no such block.
pub fn payload_of(d: &[u8], blocks: BlockTable, count: usize, number: usize) -> &[u8]
    ensures { PartOf d.entry (payload (take count blocks) number).from (payload (take count blocks) number).len result }
{
    let b = find_block(blocks, count, number);
    if !is_numbered(b, number) {
        return part(d, 0, 0);
    }
    part(
        d,
        b.start as usize,
        BLOCK_HEAD + BOND_BYTES * (b.bonds as usize),
    )
}

// The block of the placement at an index from 0.
pub fn block_at(d: &[u8], deck: Layout, k: usize) -> BlockAt
    ensures { result ≡ find (deck_of deck).blocks (placed_in d.now (deck_of deck) k).block }
{
    let p = placement(d, deck.assembly, k);
    let blocks = deck.blocks;
    find_block(blocks, deck.count, p.block as usize)
}

// Whether placement number k does not exist, or has no atom i.
pub fn is_missing(d: &[u8], deck: Layout, k: usize, i: usize) -> bool
    ensures { result ≡ is_missing d.now (deck_of deck) k i }
{
    if is_outside(deck.placements, k) {
        return true;
    }
    let b = block_at(d, deck, k - 1);
    is_outside(b.atoms as usize, i)
}
