// What is counted from an atom, and the six fields, as they grow when two are joined by a bond. For any numbers: of larger ones than
// can be the lowest binary digits count.
#![tactic(auto)]

ghost use Rattle.std.specs.Prelude.{cond, ◌≡◌, ◌+◌, ◌*◌, ◌^◌, ◌<◌, ◌≤◌};
ghost use Rattle.graph.specs.Graph.{is_at};
ghost use Rattle.joining.specs.Parts.{beyond, both, join_six};
ghost use Rattle.joining.specs.Joining.{most_counted, cut_counts, cut_fields, grown_of, joined_of};
ghost use Rattle.joining.specs.Small.{SmallCounts, Low, SmallFields};

use block::{Indices, Vertex};
use reply::larger;

// The digits that count, 29 of a number that is counted from an atom and 60 of a field: 2^29 and 2^60.
const COUNTED: u64 = 536870912;

const FIELD: u64 = 1152921504606846976;

fn times(a: u64, b: u64) -> u64
    requires { (a ≤ 2 ^ 29) × (b ≤ 2 ^ 29) }
    ensures { (result ≡ a * b) × (result ≤ 2 ^ 58) }
{
    a * b
}

// 1 if d is k, else 0.
fn is_at(k: u64, d: u64) -> u64
    ensures { (result ≡ is_at k d) × (result < 2) }
{
    if d == k { 1 } else { 0 }
}

fn cut(v: Vertex) -> Vertex
    ensures { (result ≡ cut_counts v) × SmallCounts result }
{
    Vertex {
        sum: v.sum % COUNTED,
        even: v.even % COUNTED,
        odd: v.odd % COUNTED,
        evens: v.evens % COUNTED,
        odds: v.odds % COUNTED,
        ones: v.ones % COUNTED,
        twos: v.twos % COUNTED,
        farthest: v.farthest % COUNTED,
    }
}

fn cut_fields(x: Indices) -> Indices
    ensures { (result ≡ cut_fields x) × SmallFields result }
{
    Indices {
        atoms: x.atoms % FIELD,
        w: x.w % FIELD,
        even: x.even % FIELD,
        odd: x.odd % FIELD,
        polarity: x.polarity % FIELD,
        largest: x.largest % FIELD,
    }
}

// The first where a test holds, else the second: no branch, since of distances that are even or odd by chance none can be foretold.
fn either(x: bool, a: u64, b: u64) -> u64
    requires { (a ≤ most_counted) × (b ≤ most_counted) }
    ensures { (result ≡ cond x a b) × (result ≤ most_counted) }
{
    if x { a } else { b }
}

// What is counted of o, from an atom d bonds before the joining bond at whose other end o is counted: all is d + 1 farther.
fn farther(d: u64, o: Vertex) -> Vertex
    requires d_le_most_counted { d ≤ most_counted }
    requires small_counts { SmallCounts o }
    ensures { (result ≡ beyond d o) × Low result }
{
    let by = d + 1;
    let turned = d % 2 == 0;
    let evens = either(turned, o.odds, o.evens);
    let odds = either(turned, o.evens, o.odds);
    let even = times(by, evens) + either(turned, o.odd, o.even);
    let odd = times(by, odds) + either(turned, o.even, o.odd);
    let ones = is_at(0, d);
    Vertex {
        sum: even + odd,
        even,
        odd,
        evens,
        odds,
        ones,
        twos: times(ones, o.ones) + is_at(1, d),
        farthest: by + o.farthest,
    }
}

// What is counted of both.
fn with(v: Vertex, w: Vertex) -> Vertex
    requires small_counts { SmallCounts v }
    requires low { Low w }
    ensures { result ≡ both v w }
{
    Vertex {
        sum: v.sum + w.sum,
        even: v.even + w.even,
        odd: v.odd + w.odd,
        evens: v.evens + w.evens,
        odds: v.odds + w.odds,
        ones: v.ones + w.ones,
        twos: v.twos + w.twos,
        farthest: larger(v.farthest, w.farthest),
    }
}

// What an atom counts, once another molecule is joined: v before, d bonds lead to the joining bond, and o is counted from its other end.
pub fn grown(v: Vertex, d: u64, o: Vertex) -> Vertex
    ensures { result ≡ grown_of v d o }
{
    with(cut(v), farther(d % COUNTED, cut(o)))
}

// The even distances across the joining bond: c is counted from one end, the four numbers from the other. With even and odd exchanged there, the odd ones.
fn across(c: Vertex, even: u64, odd: u64, evens: u64, odds: u64) -> u64
    requires small_counts { SmallCounts c }
    requires even_le_most_counted { (even ≤ most_counted) × (odd ≤ most_counted) × (evens ≤ most_counted) × (odds ≤ most_counted) }
    ensures { (result ≡ c.even * odds + c.evens * odds + c.evens * odd + c.odd * evens + c.odds * evens + c.odds * even)
        × (result ≤ 6 * 2 ^ 58) }
{
    times(c.even, odds)
        + times(c.evens, odds)
        + times(c.evens, odd)
        + times(c.odd, evens)
        + times(c.odds, evens)
        + times(c.odds, even)
}

// How many are 3.
fn threes_across(c: Vertex, o: Vertex) -> u64
    requires small_counts { SmallCounts c }
    requires small_counts_2 { SmallCounts o }
    ensures { (result ≡ o.twos + c.ones * o.ones + c.twos) × (result ≤ 2 ^ 59) }
{
    o.twos + times(c.ones, o.ones) + c.twos
}

// The fields of both, c and o small.
fn added(x: Indices, y: Indices, c: Vertex, o: Vertex) -> Indices
    requires small_fields { SmallFields x }
    requires small_fields_2 { SmallFields y }
    requires small_counts { SmallCounts c }
    requires small_counts_2 { SmallCounts o }
    ensures { result ≡ join_six x y c o }
{
    let even = x.even + y.even + across(c, o.even, o.odd, o.evens, o.odds);
    let odd = x.odd + y.odd + across(c, o.odd, o.even, o.odds, o.evens);
    let polarity = x.polarity + y.polarity + threes_across(c, o);
    Indices {
        atoms: x.atoms + y.atoms,
        w: even + odd,
        even,
        odd,
        polarity,
        largest: larger(larger(x.largest, y.largest), c.farthest + 1 + o.farthest),
    }
}

// The six fields of two molecules joined by a bond: x and y are theirs, c and o are counted from its ends.
pub fn joined(x: Indices, y: Indices, c: Vertex, o: Vertex) -> Indices
    ensures { result ≡ joined_of x y c o }
{
    added(cut_fields(x), cut_fields(y), cut(c), cut(o))
}
