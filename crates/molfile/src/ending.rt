// Where a molfile's own M  END is to be looked for.
ghost use Rattle.std.specs.Prelude.{◌≡◌};
ghost use Rattle.reply.specs.Read.{read};
ghost use Rattle.molfile.specs.Molfile.{counts_place, rest_of};
ghost use Rattle.molfile.specs.Work.{numbers_at, counts_reply};

use super::{MOST, Numbers, counts_line, lists};

// Where the bond lines end of a file whose counts line is read.
fn listed_end(text: &[u8], x: Numbers) -> usize
    requires { (x ≡ numbers_at text.now (counts_place text.now)) × (counts_reply text.now ≡ read tt) }
    ensures { result ≡ rest_of text.now }
{
    let mut marks = [0u8; MOST];
    let mut ones = [0u16; MOST];
    let mut twos = [0u16; MOST];
    let passed = lists(text, x, &mut marks, &mut ones, &mut twos);
    match passed {
        Err(_) => text.len(),
        Ok(at) => at,
    }
}

// Where the bond lines of a molfile end: from there on the first line that begins with M  END is its own. The text's length where its lines are refused.
pub fn rest_place(text: &[u8]) -> usize
    ensures { result ≡ rest_of text.now }
{
    let seen = counts_line(text);
    match seen {
        Err(_) => text.len(),
        Ok(x) => listed_end(text, x),
    }
}
