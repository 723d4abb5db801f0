// The distance of two placed atoms of a deck, over the book that is filled while its blocks are read.
ghost use Rattle.std.specs.Prelude.{◌≡◌, ◌≤◌};
ghost use Rattle.assembly.specs.Book.{most_blocks};
ghost use Rattle.deck.specs.Placed.{placed_distance_reply};
ghost use Rattle.deck.specs.Unfilled.{heads_from, Unfilled};
ghost use Rattle.reply.specs.Read.{as_result};

use super::FEW;
use super::reading::read_in;
use assembly::BLOCKS;
use deck::{Form, heads, is_missing};
use records::payload_at;
use reply::{Refusal, Rule};
use summary::SUMMARY;

// By a lent book that is all 0 and has a place for each of the deck's blocks.
fn distance_in(
    d: &[u8],
    k: usize,
    i: usize,
    l: usize,
    j: usize,
    book: &mut [u8],
) -> Result<u64, Refusal>
    requires { Unfilled d.now book.old }
    ensures { result ≡ as_result (placed_distance_reply d.now k i l j) }
{
    let read = read_in(d, Form::Composed, book);
    read.reply?;
    let deck = read.layout;
    if is_missing(d, deck, k, i) || is_missing(d, deck, l, j) {
        return Err(Rule::JoinAtom.at(0));
    }
    Ok(climb::far(book, payload_at(d, deck.assembly), k, i, l, j))
}

// By a book for few blocks, or for all that there can be: each in a function of its own, so that the stack holds one of them.
fn distance_few(d: &[u8], k: usize, i: usize, l: usize, j: usize) -> Result<u64, Refusal>
    requires { heads_from most_blocks d.now 0 ≤ 2 }
    ensures { result ≡ as_result (placed_distance_reply d.now k i l j) }
{
    distance_in(d, k, i, l, j, &mut [0u8; SUMMARY * FEW])
}

fn distance_all(d: &[u8], k: usize, i: usize, l: usize, j: usize) -> Result<u64, Refusal>
    requires { heads_from most_blocks d.now 0 ≤ most_blocks }
    ensures { result ≡ as_result (placed_distance_reply d.now k i l j) }
{
    distance_in(d, k, i, l, j, &mut [0u8; SUMMARY * BLOCKS])
}

// The distance of atom i of placement number k and atom j of placement number l of a deck without a sheet, or its refusal; 18 at place 0 where one does not exist.
pub fn placed_distance(d: &[u8], k: usize, i: usize, l: usize, j: usize) -> Result<u64, Refusal>
    ensures { result ≡ as_result (placed_distance_reply d.now k i l j) }
{
    if heads(d) <= FEW {
        return distance_few(d, k, i, l, j);
    }
    distance_all(d, k, i, l, j)
}
