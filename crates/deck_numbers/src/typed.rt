// What a program printed for a field, as three digits, claimed of a block or of a deck.
ghost use Rattle.std.specs.Prelude.{◌≤◌};

use judging::Verdict;
use lines::row::{FAR, Row};
use lines::told;

fn digit(x: usize) -> u8
    requires { x ≤ 9 }
{
    b'0' + x as u8
}

// A claim: the number of a field, and the text's length and bytes.
fn claim(row: Row) -> [u8; 5] {
    let field = row.first(0, FAR);
    let value = row.first(1, 999);
    [
        field as u8,
        3,
        digit(value / 100),
        digit(value / 10 % 10),
        digit(value % 10),
    ]
}

// The first field or claim that differs, 0 for none.
pub(crate) fn of_verdict(reply: Verdict) -> Row {
    match reply {
        Verdict::Refused(r) => told::refusal(r),
        Verdict::Accepted => told::one(0),
        Verdict::Differs(k) => told::one(k as u64),
    }
}

pub(crate) fn of_block(n: usize, bonds: &[u8], row: Row) -> Row {
    let bytes = claim(row);
    of_verdict(claims::of_block(n, bonds, &bytes))
}

pub(crate) fn of_deck(deck: &[u8], row: Row) -> Row {
    let bytes = claim(row);
    of_verdict(claims::of_deck(deck, &bytes))
}
