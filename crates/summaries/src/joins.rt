// The six fields of placed summaries, one join after the other.
ghost use Rattle.std.specs.Prelude.{◌≡◌, ◌-◌, ◌≤◌, length};
ghost use Rattle.graph.specs.Graph.{Within};
ghost use Rattle.joining.specs.Parts.{six_in};
ghost use Rattle.joining.specs.Joining.{joined_of};
ghost use Rattle.summaries.specs.Ready.{kept_in, joins_in, between, sight_from, ReadyShelf, StepsKnown, Counted, Kept};

use super::ends::{CountRow, StepRow, core_at, fields_at, row_of, step_at};
use super::links::{Links, end_at, parent_of};
use block::{Indices, Vertex};
use joining::grown;

// How far the atoms are apart that the placements at the indices x and y are joined to: it climbs from the later of their parents.
fn apart(book: &[u8], links: &Links, count: usize, rows: &[StepRow], x: usize, y: usize) -> u64
    requires { ReadyShelf book.now links.now count × Within (count - 1) x × Within (count - 1) y
        × StepsKnown book.now links.now rows.now count }
    ensures { result ≡ between book.now links.now x y }
{
    let mut u = x;
    let mut v = y;
    let mut d: u64 = 0;
    loop {
        let first = parent_of(links, u);
        let second = parent_of(links, v);
        if first == second {
            return d + step_at(rows, u, v);
        }
        if first < second {
            d = d + 1 + step_at(rows, second - 1, v);
            v = u;
            u = second - 1;
        } else {
            d = d + 1 + step_at(rows, first - 1, u);
            u = first - 1;
        }
    }
}

// The same for the placements at m and k, where `far` keeps it for those before m since the parent p of k: a parent of m that is later than p is one of them.
fn apart_kept(
    book: &[u8],
    links: &Links,
    count: usize,
    rows: &[StepRow],
    m: usize,
    k: usize,
    p: usize,
    far: &[u64],
) -> u64
    requires { ReadyShelf book.now links.now count × Within (count - 1) m × Within (count - 1) k × StepsKnown book.now links.now rows.now count
        × (p ≡ (joins_in links.now k).parent) × (m ≤ length far.now) × Kept book.now links.now far.now k m }
    ensures { result ≡ between book.now links.now m k }
{
    let q = parent_of(links, m);
    if p < q {
        return far[q - 1] + 1 + step_at(rows, q - 1, m);
    }
    apart(book, links, count, rows, m, k)
}

// What is counted from the parent's atom of the placement at index k, as far as the parent.
fn begun(
    book: &[u8],
    links: &Links,
    count: usize,
    rows: &[StepRow],
    counts: &[CountRow],
    k: usize,
) -> Vertex
    requires { ReadyShelf book.now links.now count × Within (count - 1) k
        × StepsKnown book.now links.now rows.now count × Counted book.now links.now counts.now count k }
    ensures { result ≡ sight_from book.now links.now (joins_in links.now k).parent k }
{
    let above = parent_of(links, k) - 1;
    let v = core_at(counts, 2 * k + 1);
    if above == 0 {
        return v;
    }
    grown(v, step_at(rows, above, k), core_at(counts, 2 * above + 1))
}

// And as far as the placement before: each placement since the parent adds what is counted from its own atom. What `far` holds before is of no matter.
fn core_of(
    book: &[u8],
    links: &Links,
    count: usize,
    rows: &[StepRow],
    counts: &[CountRow],
    k: usize,
    far: &mut [u64],
) -> Vertex
    requires { ReadyShelf book.now links.now count × Within (count - 1) k × StepsKnown book.now links.now rows.now count
        × Counted book.now links.now counts.now count k × (count ≤ length far.old) }
    ensures { result ≡ sight_from book.now links.now k k }
{
    let mut v = begun(book, links, count, rows, counts, k);
    let p = parent_of(links, k);
    for m in p..k {
        let d = apart_kept(book, links, count, rows, m, k, p, far);
        far[m] = d;
        v = grown(v, d, core_at(counts, 2 * m));
    }
    v
}

// The running summary: the six fields of the molecule as far as it is built.
#[derive(Clone, Copy)]
pub(crate) struct Summary {
    pub(crate) fields: Indices,
}

impl Summary {
    // The summary with a block more, joined by one bond: `core` is counted from its end in the molecule, `own` from its end in the block.
    fn joined(self, block: Indices, core: Vertex, own: Vertex) -> Summary
        ensures { result.fields ≡ joined_of self.fields block core own }
    {
        Summary {
            fields: joining::joined(self.fields, block, core, own),
        }
    }
}

// The six fields of the first `count` placements. What is counted at a join is kept for the later ones.
pub(crate) fn composed(
    book: &[u8],
    links: &Links,
    count: usize,
    rows: &[StepRow],
    counts: &mut [CountRow],
    far: &mut [u64],
) -> Indices
    requires { ReadyShelf book.now links.now count × StepsKnown book.now links.now rows.now count
        × Counted book.now links.now counts.old count 1 × (count ≤ length far.old) }
    ensures { result ≡ six_in (kept_in book.now links.now) (joins_in links.now) (count - 1) }
{
    let mut s = Summary {
        fields: fields_at(book, end_at(links, 0)),
    };
    for k in 1..count {
        let core = core_of(book, links, count, rows, counts, k, far);
        let own = core_at(counts, 2 * k);
        s = s.joined(fields_at(book, end_at(links, 2 * k)), core, own);
        counts[2 * k + 1] = row_of(core);
    }
    s.fields
}
