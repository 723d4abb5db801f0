// A row of values put into lent entries, three numbers each: value, tag and position, the best first. Where many come in they are put in order first, part by part, and
// merged; else one after the other. Both are one and the same ranking.
#![tactic(auto)]

mod entries;
mod merge;
mod parts;

ghost use Rattle.std.specs.Prelude.{◌≡◌, min, length};
ghost use Rattle.placing.specs.Ranked.{coming};
ghost use Rattle.placing.specs.Entries.{laid, value_in, ranked_in};

use entries::put_each;
use merge::in_order;
use parts::{many_come, put_in_parts};

// The smaller of two numbers: how many entries are held, of those that the caller says and those that there is room for.
fn fewer(held: usize, room: usize) -> usize
    ensures { result ≡ min held room }
{
    if room < held {
        return room;
    }
    held
}

// Puts a row of values with one tag into lent entries, each with its position in the row, and hands back how many are held.
pub fn put_row(greatest: bool, tag: u64, values: &[u64], entries: &mut [u64], held: usize) -> usize
    ensures count { result ≡ length (ranked_in greatest (coming (value_in values.now) tag (length values.now)) entries.old held) }
    ensures numbers { entries.new ≡ laid (ranked_in greatest (coming (value_in values.now) tag (length values.now)) entries.old held)
        entries.old }
{
    let n = entries.len() / 3;
    let k = fewer(held, n);
    if many_come(greatest, values, entries, n, k) {
        if in_order(greatest, entries, k) {
            return put_in_parts(greatest, tag, values, entries, n, k);
        }
    }
    put_each(greatest, tag, values, 0, values.len(), entries, n, k)
}
