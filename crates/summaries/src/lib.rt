// Composing over a book of summaries: the six fields of an assembly by the joining rules, whatever the summaries say.
#![tactic(auto)]

mod ends;
mod joins;
mod links;

ghost use Rattle.std.specs.Prelude.{◌≡◌, ◌*◌, ◌-◌, ◌≤◌, length};
ghost use Rattle.joining.specs.Parts.{six_in};
ghost use Rattle.summaries.specs.Composing.{composed_reply};
ghost use Rattle.summaries.specs.Ready.{kept_in, joins_in, ReadyShelf};
ghost use Rattle.summaries.specs.Ends.{Unmarked};
ghost use Rattle.reply.specs.Read.{as_result};

use assembly::PLACEMENTS;
use block::Indices;
use ends::{CountRow, MORE, StepRow, see_ends};
use joins::composed;
use links::{Links, links_of};
use records::le16_at;
use reply::Refusal;
use shelf::check;

// The placements of a small assembly: for it, and for one of middle size, fewer rows are cleared.
const FEW: usize = 2;

// By lent rows for both ends of each join, and one for distances.
fn by_rows(
    book: &[u8],
    links: &Links,
    count: usize,
    rows: &mut [StepRow],
    counts: &mut [CountRow],
    far: &mut [u64],
) -> Indices
    requires { ReadyShelf book.now links.now count × (count ≤ length rows.old) × (2 * count ≤ length counts.old) × Unmarked counts.old
        × (count ≤ length far.old) }
    ensures { result ≡ six_in (kept_in book.now links.now) (joins_in links.now) (count - 1) }
{
    see_ends(book, links, count, rows, counts);
    composed(book, links, count, rows, counts, far)
}

fn placed(book: &[u8], links: &Links, count: usize) -> Indices
    requires { ReadyShelf book.now links.now count }
    ensures { result ≡ six_in (kept_in book.now links.now) (joins_in links.now) (count - 1) }
{
    if count <= FEW {
        let mut rows = [[0u8; PLACEMENTS]; FEW];
        let mut counts = [[0u32; 8]; 2 * FEW];
        let mut far = [0u64; FEW];
        return by_rows(book, links, count, &mut rows, &mut counts, &mut far);
    }
    if count <= MORE {
        let mut rows = [[0u8; PLACEMENTS]; MORE];
        let mut counts = [[0u32; 8]; 2 * MORE];
        let mut far = [0u64; MORE];
        return by_rows(book, links, count, &mut rows, &mut counts, &mut far);
    }
    let mut rows = [[0u8; PLACEMENTS]; PLACEMENTS];
    let mut counts = [[0u32; 8]; 2 * PLACEMENTS];
    let mut far = [0u64; PLACEMENTS];
    by_rows(book, links, count, &mut rows, &mut counts, &mut far)
}

// The six fields of an assembly's payload over a book of summaries, or its refusal, 15 to 19, 23 or 24, at the placement's number. The bytes
// alone fix the reply, whatever they are.
pub fn compose(book: &[u8], xs: &[u8]) -> Result<Indices, Refusal>
    ensures { result ≡ as_result (composed_reply book.now xs.now) }
{
    check(book, xs)?;
    let count = le16_at(xs, 0) as usize;
    let links = links_of(xs, count);
    Ok(placed(book, &links, count))
}
