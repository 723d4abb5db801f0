// What is asked of a deck.
ghost use Rattle.std.specs.Prelude.{◌≤◌, length};

use crate::{libraries, typed};
use lines::row::{FAR, Row};
use lines::{row, told};
use matched::Match;
use records::Sheet;
use reply::Refusal;

// What stands in a lent buffer before it is written to.
const STAYS: u8 = row::STAYS as u8;

// Placement and atom of each of the two ends.
fn apart(deck: &[u8], row: Row) -> Row {
    let k = row.first(0, FAR);
    let i = row.first(1, FAR);
    let l = row.first(2, FAR);
    let j = row.first(3, FAR);
    told::number(compose::placed_distance(deck, k, i, l, j))
}

// The first bytes of a buffer are lent.
fn sheet_in(deck: &[u8], sheet: Sheet, out: &mut [u8], lent: usize) -> Result<(), Refusal>
    requires { lent ≤ length out.old }
{
    judging::write_sheet(deck, sheet, &mut out[..lent])
}

// A sheet or a refusal, or what stands in the buffer after that.
fn written(deck: &[u8], sheet: Sheet, bytes: bool, lent: usize) -> Row
    requires { lent ≤ 64 }
{
    let mut out = [STAYS; 64];
    let reply = sheet_in(deck, sheet, &mut out, lent);
    if bytes {
        return told::bytes(&out);
    }
    match reply {
        Err(r) => told::refusal(r),
        Ok(()) => told::nothing(),
    }
}

// Room for the numbers of a small molecule.
const SMALL: usize = 64;

// The numbers of atoms and bonds of a deck's molecule written out.
fn written_out(deck: &[u8]) -> Row {
    let mut out = [0u16; SMALL];
    told::counts(whole::bonds(deck, &mut out))
}

// Whether a deck is the molecule of so many atoms whose atoms 1 and 2 are bonded, by the matching of these to the first atoms of the first two placements: nothing
// for yes, or the place that fails.
fn pair(deck: &[u8], atoms: usize) -> Row {
    let bonds = [1u16, 2];
    let matching = [1u16, 1, 2, 1];
    match matched::check(deck, atoms, &bonds, &matching) {
        Err(r) => told::refusal(r),
        Ok(Match::Same) => told::nothing(),
        Ok(Match::Differs(place)) => told::one(place as u64),
    }
}

// The reply to a question about a sheet, which is known by its first letter.
fn of_sheet(letter: u8, deck: &[u8], lent: usize) -> Row
    requires { lent ≤ 64 }
{
    match letter {
        b'w' => written(deck, Sheet::Five, false, lent),
        b'b' => written(deck, Sheet::Five, true, lent),
        b'k' => written(deck, Sheet::Six, false, lent),
        _ => written(deck, Sheet::Six, true, lent),
    }
}

// The reply to a question, which is known by its first letter.
pub(crate) fn reply_to(letter: u8, deck: &[u8], row: Row) -> Row {
    match letter {
        b'c' | b'l' | b's' => told::indices(letter, judging::compose(deck)),
        b'j' => typed::of_verdict(judging::judge(deck)),
        b't' => typed::of_deck(deck, row),
        b'a' => apart(deck, row),
        b'f' => told::bytes(compose::block_part(deck, row.first(0, FAR))),
        b'w' | b'b' | b'k' | b'o' => of_sheet(letter, deck, row.first(0, 64)),
        b'y' => written_out(deck),
        b'x' => pair(deck, row.first(0, FAR)),
        b'q' | b'p' | b'r' | b'e' => libraries::reply_to(letter, deck, row),
        _ => told::unknown(),
    }
}
