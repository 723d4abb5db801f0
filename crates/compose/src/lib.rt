// Reading a deck, and composing it: the six fields of the molecule that it describes, over a book that is filled while its blocks are read.
#![tactic(auto)]

mod blocks;
mod distance;
mod reading;

ghost use Rattle.std.specs.Prelude.{◌≡◌, ◌≤◌};
ghost use Rattle.reply.specs.Read.{refused, refusal, as_result};
ghost use Rattle.assembly.specs.Book.{most_blocks};
ghost use Rattle.assembly.specs.Placements.{most_placements};
ghost use Rattle.deck.specs.Deck.{longest_deck, placement_place};
ghost use Rattle.deck.specs.Unfilled.{heads_from, Unfilled};
ghost use Rattle.compose.specs.Fields.{compose_reply, behind_reply};

use assembly::{BLOCKS, PLACEMENT_BYTES};
use block::Indices;
pub use blocks::open_deck;
use deck::{Form, heads, sheet_reply};
pub use distance::placed_distance;
pub use reading::{block_part, read_deck};
use records::{ASSEMBLY, payload_at};
use reply::Refusal;
use summaries::compose;
use summary::SUMMARY;

// The blocks of a small deck and of a middling one, for which a shorter book is cleared.
const FEW: usize = 2;

const SOME: usize = 6;

// The six fields of a deck's molecule, and the first byte after its assembly.
#[derive(Clone, Copy, Debug, PartialEq, Eq)]
pub struct Composed {
    pub fields: Indices,
    pub sheet: usize,
}

// A refusal of the assembly at a place.
fn refused_at(at: usize, r: Refusal) -> Result<Composed, Refusal>
    requires { (at ≤ longest_deck) × (r.place ≤ most_placements) }
    ensures { result ≡ as_result (refused (refusal r.number (placement_place at r))) }
{
    Err(Refusal {
        number: r.number,
        place: at + PLACEMENT_BYTES * r.place,
    })
}

// What follows the assembly, and then the fields.
fn behind(d: &[u8], form: Form, fields: Indices, sheet: usize) -> Result<Composed, Refusal>
    ensures { result ≡ as_result (behind_reply form d.now fields sheet) }
{
    sheet_reply(form, d, sheet)?;
    Ok(Composed { fields, sheet })
}

// The fields of a deck, by a lent book that is all 0 and has a place for each of its blocks.
fn in_book(d: &[u8], form: Form, book: &mut [u8]) -> Result<Composed, Refusal>
    requires { Unfilled d.now book.old }
    ensures { result ≡ as_result (compose_reply form d.now) }
{
    let k = open_deck(d, ASSEMBLY, book);
    k.reply?;
    let layout = k.layout;
    let at = layout.assembly;
    let sheet = layout.sheet;
    match compose(book, payload_at(d, at)) {
        Err(refusal) => refused_at(at, refusal),
        Ok(fields) => behind(d, form, fields, sheet),
    }
}

// The same, by a book just as large as so many blocks need: each size in a function of its own, so that the stack holds one of them.
fn by_few(d: &[u8], form: Form) -> Result<Composed, Refusal>
    requires { heads_from most_blocks d.now 0 ≤ 2 }
    ensures { result ≡ as_result (compose_reply form d.now) }
{
    in_book(d, form, &mut [0u8; SUMMARY * FEW])
}

fn by_some(d: &[u8], form: Form) -> Result<Composed, Refusal>
    requires { heads_from most_blocks d.now 0 ≤ 6 }
    ensures { result ≡ as_result (compose_reply form d.now) }
{
    in_book(d, form, &mut [0u8; SUMMARY * SOME])
}

fn by_all(d: &[u8], form: Form) -> Result<Composed, Refusal>
    requires { heads_from most_blocks d.now 0 ≤ most_blocks }
    ensures { result ≡ as_result (compose_reply form d.now) }
{
    in_book(d, form, &mut [0u8; SUMMARY * BLOCKS])
}

// The six fields of a deck in a form: atom count, W, even part, odd part, polarity and largest distance of its molecule, and where a sheet stands
// behind its assembly; or the deck's refusal.
pub fn fields(d: &[u8], form: Form) -> Result<Composed, Refusal>
    ensures { result ≡ as_result (compose_reply form d.now) }
{
    let many = heads(d);
    if many <= FEW {
        return by_few(d, form);
    }
    if many <= SOME {
        return by_some(d, form);
    }
    by_all(d, form)
}
