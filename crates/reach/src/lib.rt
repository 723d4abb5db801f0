// A block measured by reach: for each atom the set of the atoms at most d bonds away, one bond farther at a time. No distance is stored.
//
// Each atom with its neighbours, as they were drawn, comes first. One bond farther an atom reaches what its neighbours reached, so each set takes in
// those of its neighbours, bond by bond. How many atoms the sets have together, level by level, gives how many ordered pairs lie at each distance,
// and so W, both parts and the polarity, each twice; the last level is the largest distance. The atoms that an atom has not reached, all levels
// together, are its vertex sum. The loops go by the number of bonds and of atoms and by no distance: that is why this is faster than a search from
// each atom.
#![tactic(auto)]

ghost use Rattle.std.specs.Prelude.{◌≡◌, ℕ, ◌+◌, ◌*◌, ◌/◌, ◌≤◌, ◌<◌, length, get_or, true};
ghost use Rattle.std.specs.Int.Count.{ones};
ghost use Rattle.graph.specs.Graph.{Within, sum, odd_of};
ghost use Rattle.reply.specs.Read.{read, as_result};
ghost use Rattle.block.specs.Block.{most_atoms, graph_of, drawn_reply, block_reply};
ghost use Rattle.block.specs.Index.{indices_reply};
ghost use Rattle.block.specs.Near.{around};
ghost use Rattle.block.specs.Opened.{neighbours_of, drawn_near};
ghost use Rattle.block.specs.Rows.{lent_row};
ghost use Rattle.reach.specs.Sums.{sums_reply};
ghost use Rattle.reach.specs.Reach.{WithNeighbours, Spread, Fit, Low, together_in, few_atoms, low, of_level, AllMeet, AllNext, exchanged, LowSums, first_level, farther_of, halved, Room, Added, Left, Reached};

use block::{ATOMS, Indices, Neighbours, first_atoms, size};
use reply::{Refusal, Rule};

// A set of atoms for each atom: that of atom v at v - 1.
type Sets = [u64; ATOMS];

// Sets of so many atoms are counted four at a time: they are below SIDE, and four of them stand in one number.
const FEW: usize = 16;

const SIDE: u64 = 65536;

// What the distances of all ordered pairs add up to: all of them and the odd ones; and how many are 3.
#[derive(Clone, Copy)]
struct Both {
    pub all: u64,
    pub odd: u64,
    pub threes: u64,
}

// Each of n atoms with its neighbours, in both tables.
fn with_neighbours(near: &Neighbours, n: usize, odd: &mut [u64], even: &mut [u64])
    requires { (n ≤ most_atoms) × (n ≤ length odd.old) × (n ≤ length even.old) }
    ensures { WithNeighbours n near.now odd.new × WithNeighbours n near.now even.new }
{
    for i in 0..n {
        let set = near[i] | 1u64 << i;
        odd[i] = set;
        even[i] = set;
    }
}

// How far they reach: one bond, where there is a bond.
fn first(bonds: &[u8]) -> u64
    ensures { result ≡ first_level bonds.now }
{
    if bonds.len() == 0 { 0 } else { 1 }
}

// The ends of a bond take in what the other end reached.
fn exchange(near: &[u64], one: u8, two: u8, sets: &mut [u64])
    requires { Within most_atoms one × Within most_atoms two × (length near.now ≡ most_atoms) × (length sets.old ≡ most_atoms) }
    ensures { sets.new ≡ exchanged near.now one two sets.old }
{
    let u = one as usize - 1;
    let v = two as usize - 1;
    sets[u] = sets[u] | near[v];
    sets[v] = sets[v] | near[u];
}

// How many of the first FEW atoms four sets have together: the sets stand side by side in one number.
fn size_of_four(a: u64, b: u64, c: u64, d: u64) -> u64
    ensures { (result ≡ ones (low d) + ones (low c) + ones (low b) + ones (low a)) × (result ≤ most_atoms) }
{
    size(((d % SIDE * SIDE + c % SIDE) * SIDE + b % SIDE) * SIDE + a % SIDE)
}

// How many atoms the sets of the first 4 q atoms have together, where they have only the first FEW.
fn by_fours(sets: &[u64], q: usize) -> u64
    requires { (4 * q ≤ most_atoms) × (4 * q ≤ length sets.now) }
    ensures { (Low (4 * q) sets.now → result ≡ together_in sets.now (4 * q)) × (result ≤ most_atoms * most_atoms) }
{
    let mut met: u64 = 0;
    for k in 0..q {
        let i = 4 * k;
        met += size_of_four(sets[i], sets[i + 1], sets[i + 2], sets[i + 3]);
    }
    met
}

// How many atoms the sets of n atoms have together, those of the first `from` left out.
fn one_by_one(sets: &[u64], from: usize, n: usize) -> u64
    requires { (from ≤ n) × (n ≤ most_atoms) × (n ≤ length sets.now) }
    ensures { (together_in sets.now from + result ≡ together_in sets.now n) × (result ≤ most_atoms * most_atoms) }
{
    let mut met: u64 = 0;
    for i in from..n {
        let atoms = size(sets[i]);
        met += atoms;
    }
    met
}

// How often four of n sets can be counted as one.
fn fours(n: usize) -> usize
    ensures { (4 * result ≤ n) × (0 < result → n ≤ few_atoms) }
{
    if n <= FEW { n / 4 } else { 0 }
}

// How many atoms the sets of the first n atoms have together, where they have only these: small ones four at a time.
fn together(sets: &[u64], n: usize) -> u64
    requires { (n ≤ most_atoms) × (n ≤ length sets.now) }
    ensures { Fit n sets.now → result ≡ together_in sets.now n }
{
    let q = fours(n);
    by_fours(sets, q) + one_by_one(sets, 4 * q, n)
}

// One bond farther: to the set of each atom come those of its neighbours. Two bonds a turn, one of each half, wait less for each other; of an odd
// number the middle one comes twice, which adds nothing. And how many atoms the sets have then together.
fn spread(near: &[u64], n: usize, bonds: &[u8], sets: &mut [u64]) -> u64
    requires { (drawn_reply n bonds.now ≡ read tt) × (length near.now ≡ most_atoms) × (length sets.old ≡ most_atoms) }
    ensures { Spread n bonds.now near.now sets.old sets.new result }
{
    let m = bonds.len() / 2;
    let half = m - m / 2;
    for k in 0..half {
        let j = k + m / 2;
        exchange(near, bonds[2 * k], bonds[2 * k + 1], sets);
        exchange(near, bonds[2 * j], bonds[2 * j + 1], sets);
    }
    together(sets, n)
}

// From the table of level d, which stays, to the other one, which holds the level before: the two change roles at each level, and nothing is copied.
fn next_level(d: u64, n: usize, bonds: &[u8], odd: &mut [u64], even: &mut [u64]) -> u64
    requires { (drawn_reply n bonds.now ≡ read tt) × (length odd.old ≡ most_atoms) × (length even.old ≡ most_atoms) }
    ensures kept { of_level d odd.new even.new ≡ of_level d odd.old even.old }
    ensures next { Spread n bonds.now (of_level d odd.old even.old)
        (of_level d even.old odd.old) (of_level d even.new odd.new) result }
{
    if d % 2 == 0 {
        return spread(even, n, bonds, odd);
    }
    spread(odd, n, bonds, even)
}

// The table of level d: the odd levels have one and the even levels the other.
fn of_level<'a>(d: u64, odd: &'a Sets, even: &'a Sets) -> &'a Sets
    ensures { result.now ≡ of_level d odd.now even.now }
{
    if d % 2 == 0 { even } else { odd }
}

// How many atoms the set of each of the first k atoms has is added to what it reached.
fn count(sets: &Sets, k: usize, reached: &mut [u64])
    requires { (k ≤ most_atoms) × (k ≤ length reached.old) × Room k reached.old }
    ensures { Added k sets.now reached.old reached.new }
{
    for i in 0..k {
        let atoms = size(sets[i]);
        reached[i] = reached[i] + atoms;
    }
}

// d where it is odd, else 0.
fn odd_part(d: u64) -> u64
    ensures { result ≡ odd_of d }
{
    if d % 2 == 0 { 0 } else { d }
}

// With so many more pairs, which are d bonds apart.
fn farther(s: Both, d: u64, pairs: u64) -> Both
    requires { LowSums s × (d ≤ most_atoms) × (pairs ≤ most_atoms * most_atoms) }
    ensures { result ≡ farther_of s d pairs }
{
    Both {
        all: s.all + d * pairs,
        odd: s.odd + odd_part(d) * pairs,
        threes: s.threes + (d == 3) as u64 * pairs,
    }
}

// Whether each atom of a set has one of some others within its own reach.
fn all_meet(near: &Sets, some: u64, set: u64) -> bool
    ensures { result ≡ true → AllMeet near.now some set }
{
    let mut rest = set;
    while rest != 0 {
        let p = u64::trailing_zeros(rest) as usize;
        if near[p] & some == 0 {
            return false;
        }
        rest = rest & (rest - 1);
    }
    true
}

// Whether of n atoms those that are not within reach of each other are one bond farther apart: one has a neighbour of the other within its reach.
fn all_next(near: &Sets, drawn: &Neighbours, n: usize) -> bool
    requires { n ≤ most_atoms }
    ensures { result ≡ true → AllNext n near.now drawn.now }
{
    let all = first_atoms(n);
    for i in 0..n {
        if !all_meet(near, drawn[i], all ^ near[i]) {
            return false;
        }
    }
    true
}

// The indices of n atoms of which none are more than d bonds apart.
fn finished(n: usize, s: Both, d: u64) -> Result<Indices, Refusal>
    requires { s.odd / 2 ≤ s.all / 2 }
    ensures { result ≡ Ok (halved n s d) }
{
    let w = s.all / 2;
    let odd = s.odd / 2;
    let even = w - odd;
    Ok(Indices {
        atoms: n as u64,
        w,
        even,
        odd,
        polarity: s.threes / 2,
        largest: d,
    })
}

// The indices of a block that 1 to 6 do not refuse, or 7 where a level adds nothing before all pairs are met. As many ordered pairs are one bond
// apart as the bonds have ends, a byte each: the first level needs no counting; and where no more pairs are left than atoms, the last level needs no
// spreading. And lent, 0 before, for each of the first k atoms, how many atoms were within its reach, all levels from the first to the one before the
// last together.
fn summed(
    n: usize,
    bonds: &[u8],
    drawn: &Neighbours,
    k: usize,
    reached: &mut [u64],
) -> Result<Indices, Refusal>
    requires { (drawn_reply n bonds.now ≡ read tt) × (drawn.now ≡ neighbours_of (graph_of n bonds.now)) × (k ≤ n) × (k ≤ length reached.old)
        × ((p : ℕ) → get_or reached.old p 0 ≡ 0) }
    ensures reply { result ≡ as_result (indices_reply n bonds.now) }
    ensures reached { (x : Indices) → result ≡ Ok x → Reached (graph_of n bonds.now) (first_level bonds.now) k x.largest reached.new }
{
    let pairs = n as u64 * n as u64;
    let ends = bonds.len() as u64;
    let mut odd = [0u64; ATOMS];
    let mut even = [0u64; ATOMS];
    with_neighbours(drawn, n, &mut odd, &mut even);
    let mut s = Both {
        all: ends,
        odd: ends,
        threes: 0,
    };
    let mut met = n as u64 + ends;
    let mut d = first(bonds);
    while met < pairs {
        let near = of_level(d, &odd, &even);
        count(near, k, reached);
        if pairs - met <= n as u64 && all_next(near, drawn, n) {
            return finished(n, farther(s, d + 1, pairs - met), d + 1);
        }
        let more = next_level(d, n, bonds, &mut odd, &mut even);
        if more == met {
            return Err(Rule::NoPath.at(0));
        }
        d += 1;
        s = farther(s, d, more - met);
        met = more;
    }
    finished(n, s, d)
}

// The indices of a block, its bonds read once, or its refusal; and lent what `block::drawn` says: its neighbours, where 1 to 6 do not refuse it.
pub fn opened(n: usize, bonds: &[u8], near: &mut Neighbours) -> Result<Indices, Refusal>
    ensures reply { result ≡ as_result (indices_reply n bonds.now) }
    ensures near { near.new ≡ drawn_near n bonds.now }
{
    block::drawn(n, bonds, near)?;
    let mut none = [0u64; 0];
    summed(n, bonds, near, 0, &mut none)
}

// The indices of a block, or its refusal.
pub fn measure(n: usize, bonds: &[u8]) -> Result<Indices, Refusal>
    ensures { result ≡ as_result (indices_reply n bonds.now) }
{
    let mut near = [0u64; ATOMS];
    opened(n, bonds, &mut near)
}

// What is left of so many levels of n atoms each, for each of the n atoms, which reached so many and itself: a distance is how many levels an atom was
// not within reach.
fn left(n: usize, levels: u64, own: u64, sums: &mut [u64])
    requires { (n ≤ most_atoms) × (levels ≤ most_atoms) × (n ≤ length sums.old) × ((v : ℕ) → Within n v → own + around sums.old v ≤ n * levels) }
    ensures { Left n levels own sums.old sums.new }
{
    let all = n as u64 * levels;
    for i in 0..n {
        sums[i] = all - (own + sums[i]);
    }
}

// The reply to a block, and in what is lent the vertex sum of each atom, that of atom v at v - 1; all is 0 beyond the atoms, and where it is refused.
pub fn vertex_sums(n: usize, bonds: &[u8], sums: &mut [u64; ATOMS]) -> Result<(), Refusal>
    ensures reply { result ≡ as_result (block_reply n bonds.now) }
    ensures sums { sums.new ≡ lent_row (sums_reply n bonds.now) }
{
    *sums = [0u64; ATOMS];
    let mut near = [0u64; ATOMS];
    block::drawn(n, bonds, &mut near)?;
    match summed(n, bonds, &near, n, sums) {
        Err(refusal) => {
            *sums = [0u64; ATOMS];
            Err(refusal)
        }
        Ok(indices) => {
            left(n, indices.largest, first(bonds), sums);
            Ok(())
        }
    }
}
