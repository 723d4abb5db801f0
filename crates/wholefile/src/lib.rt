// V2000 molfiles read as one molecule of any size that three digits say: hydrogens with one bond dropped, bonds as pairs of numbers.
#![tactic(auto)]

ghost use Rattle.std.specs.Prelude.{◌≡◌, ◌&&◌, ◌||◌, cond, [], ◌+◌, ◌*◌, ◌≤◌, ◌<◌, eqb, length};
ghost use Rattle.std.proofs.lemmas.List.Edits.{sets};
ghost use Rattle.graph.specs.Graph.{bond, joins};
ghost use Rattle.block.specs.Block.{bonds_of, bond_fault, bonds_reply};
ghost use Rattle.block.specs.Numbered.{bond_at};
ghost use Rattle.block.proofs.Reading.{before};
ghost use Rattle.molfile.specs.Molfile.{fitting_reply};
ghost use Rattle.molfile.specs.Said.{said_answer, said_molfile, filled_bonds};
ghost use Rattle.wholefile.specs.Whole.{molecule_reply, whole_file_reply};
ghost use Rattle.wholefile.specs.Said.{whole_numbers, seen_by};
ghost use Rattle.reply.specs.Read.{as_result};
ghost use Rattle.reply.specs.Rules.{number_if};

use block::LIMIT;
use molfile::PAIRS;
use reply::{Counts, Refusal, Rule, is_outside, wide_two};

// What the bonds before say of two atoms: whether one of them joins these, and how many ends each has.
#[derive(Clone, Copy)]
struct Seen {
    pub joined: bool,
    pub one: usize,
    pub two: usize,
}

fn both(p: u16, q: u16, a: u16, b: u16) -> bool
    ensures { result ≡ (eqb p a && eqb q b) }
{
    if p == a { q == b } else { false }
}

fn either(s: bool, t: bool) -> bool
    ensures { result ≡ (s || t) }
{
    if s { true } else { t }
}

// Whether the bond p-q joins a and b.
fn joins(p: u16, q: u16, a: u16, b: u16) -> bool
    ensures { result ≡ joins (bond p q) a b }
{
    either(both(p, q, a, b), both(p, q, b, a))
}

fn one_if(p: u16, v: u16) -> usize
    ensures { (result ≡ cond (eqb p v) 1 0) × (result ≤ 1) }
{
    if p == v { 1 } else { 0 }
}

// What the first k bonds say of the atoms a and b.
fn look_back(xs: &[u16], k: usize, a: u16, b: u16) -> Seen
    requires { 2 * k ≤ length xs.now }
    ensures { result ≡ seen_by (before xs.now k) a b }
{
    let mut joined = false;
    let mut one: usize = 0;
    let mut two: usize = 0;
    for i in 0..k {
        let p = xs[2 * i];
        let q = xs[2 * i + 1];
        let now_joined = either(joins(p, q, a, b), joined);
        joined = now_joined;
        one = one_if(p, a) + one_if(q, a) + one;
        two = one_if(p, b) + one_if(q, b) + two;
    }
    Seen { joined, one, two }
}

// The rule that refuses bond k, from 0, after those before it.
#[tactic(auto, unfolding(block::specs::Block::bond_fault))]
fn fault(n: usize, xs: &[u16], k: usize) -> Option<Rule>
    requires { 2 * k + 1 < length xs.now }
    ensures { number_if result ≡ bond_fault n (before xs.now k) (bond_at xs.now k) }
{
    let a = xs[2 * k];
    let b = xs[2 * k + 1];
    if is_outside(n, wide_two(a)) || is_outside(n, wide_two(b)) {
        return Some(Rule::BondEnd);
    }
    if a == b {
        return Some(Rule::SelfBond);
    }
    let seen = look_back(xs, k, a, b);
    if seen.joined {
        return Some(Rule::ListedBefore);
    }
    if seen.one >= LIMIT || seen.two >= LIMIT {
        return Some(Rule::SeventhBond);
    }
    None
}

// The refusals 3 to 6 of the bonds between n atoms, one by one.
fn bonds(n: usize, xs: &[u16]) -> Result<(), Refusal>
    ensures { result ≡ as_result (bonds_reply n [] (bonds_of xs.now)) }
{
    let m = xs.len() / 2;
    for k in 0..m {
        if let Some(rule) = fault(n, xs, k) {
            return Err(rule.at(k + 1));
        }
    }
    Ok(())
}

// Puts numbers at the front of what is lent.
fn put(out: &mut [u16], xs: &[u16])
    requires { length xs.now ≤ length out.old }
    ensures { out.new ≡ sets out.old 0 xs.now }
{
    for i in 0..xs.len() {
        out[i] = xs[i];
    }
}

// The refusals of n atoms and the bonds between them: 1 for no atom, then 3 to 6.
fn molecule(n: usize, xs: &[u16]) -> Result<(), Refusal>
    ensures { result ≡ as_result (molecule_reply n xs.now) }
{
    if n == 0 {
        return Err(Rule::AtomCount.at(0));
    }
    bonds(n, xs)
}

// The answer for n atoms and the bonds between them: their refusals, 9 for a lent output too short, or the numbers of the bonds.
fn answer(n: usize, xs: &[u16], out: &mut [u16]) -> Result<Counts, Refusal>
    ensures reply { result ≡ said_answer n xs.now (fitting_reply molecule_reply n xs.now (length out.old)) }
    ensures numbers { out.new ≡ filled_bonds (fitting_reply molecule_reply n xs.now (length out.old)) xs.now out.old }
{
    molecule(n, xs)?;
    if out.len() < xs.len() {
        return Err(Rule::ShortOutput.at(0));
    }
    put(out, xs);
    Ok(Counts {
        atoms: n,
        bonds: xs.len() / 2,
    })
}

// Reads a molfile as one molecule: how many atoms and bonds it has, its bonds at the front of the lent output, two numbers each, and later numbers stay. Or
// it is a refusal, and no number changes: 25 to 27 of its lines in file order, 1 where no atom is kept, 3 to 6 of the kept bonds one by one, then 9 where
// fewer numbers are lent than these take. How many bonds there are and whether paths lead to all atoms is not asked.
pub fn read_whole(text: &[u8], out: &mut [u16]) -> Result<Counts, Refusal>
    ensures reply { result ≡ said_molfile text.now (whole_file_reply text.now (length out.old)) }
    ensures numbers { out.new ≡ whole_numbers text.now out.old }
{
    let mut pairs = [0u16; PAIRS];
    let k = molfile::kept_bonds(text, &mut pairs)?;
    let numbers = k.numbers;
    answer(k.atoms, &pairs[..numbers], out)
}
