// V2000 molfiles: what is kept of one, hydrogens with one bond dropped. `blockfile` reads it as a block, `wholefile` as one molecule of up to 999 atoms.
//
// The lines of a file come once, in the order in which they stand. Marks of hydrogens, ends of bonds and weights stand in arrays of one size, so that any
// file takes the same stack; the new numbers come in the weights' place. An atom's weight is 1 for each bond and 1 more for one that leads to an H, so
// that one pass over the bonds says which H go. Line feeds are looked for in 16 bytes at a time.
#![tactic(auto)]

ghost use Rattle.std.specs.Prelude.{◌≡◌, ◌+◌, ◌≤◌, length};
ghost use Rattle.reply.specs.Read.{read};
ghost use Rattle.text.specs.Text.{three_at, line_chars};
ghost use Rattle.text.specs.Said.{field_number};
ghost use Rattle.molfile.specs.Molfile.{counts_place, atom_line_place, bond_line_place, atom_line_count, bond_line_count, symbol_at, is_h, one_h, hydrogen_at, in_turn, line_reply, header_reply, numbers_reply, bond_reply, lines_reply};
ghost use Rattle.molfile.specs.Said.{said_kept, kept_numbers};
ghost use Rattle.molfile.specs.Work.{most, mark_of, said_line, said_walk, numbers_at, said_numbers, counts_reply, AtomsRead, BondsRead, RestRead, ListsRead};

use reply::{Refusal, Rule};
use text::{BLANK, Line, NO_NUMBER};

mod dropping;
mod ending;

pub use ending::rest_place;

// How many atoms of a molfile are kept, and how many numbers of their bonds, two each, were put.
#[derive(Clone, Copy, Debug, PartialEq, Eq)]
pub struct Kept {
    pub atoms: usize,
    pub numbers: usize,
}

// The most atoms or bonds that three digits say.
pub const MOST: usize = 999;

// The numbers of so many bonds.
pub const PAIRS: usize = 2 * MOST;

// The fewest characters of a line that begins with two numbers, and of an atom line, whose last is the first of its symbol.
const TWO_NUMBERS: usize = 6;

const ATOM_LINE: usize = 32;

// The two numbers that a line begins with, and where the next line begins.
#[derive(Clone, Copy)]
struct Numbers {
    pub one: usize,
    pub two: usize,
    pub next: usize,
}

// The line due at a place: 25 where it is missing or has fewer characters than it needs.
fn line(d: &[u8], at: usize, least: usize) -> Result<Line, Refusal>
    ensures { result ≡ said_line d.now at (line_reply least d.now at) }
{
    if d.len() <= at {
        return Err(Rule::MolfileLine.at(d.len()));
    }
    let seen = text::line_at(d, at);
    if seen.chars < least {
        return Err(Rule::MolfileLine.at(at));
    }
    Ok(seen)
}

// The header lines.
const HEADER: usize = 3;

fn header(d: &[u8]) -> Result<usize, Refusal>
    ensures { result ≡ said_walk (counts_place d.now) (in_turn 3 (header_reply d.now)) }
{
    let mut at = 0;
    for _ in 0..HEADER {
        let l = line(d, at, 0)?;
        at = l.next;
    }
    Ok(at)
}

// The number of three characters at a place: 1000 where it is none.
fn number_at(d: &[u8], at: usize) -> usize
    requires { at + 3 ≤ length d.now }
    ensures { result ≡ field_number (three_at d.now at) }
{
    text::number(d[at], d[at + 1], d[at + 2])
}

// A line that begins with two numbers: 25, then 26.
fn two_numbers(d: &[u8], at: usize) -> Result<Numbers, Refusal>
    ensures { result ≡ said_numbers d.now at (numbers_reply d.now at) }
{
    let l = line(d, at, TWO_NUMBERS)?;
    let one = number_at(d, at);
    let two = number_at(d, at + 3);
    if one == NO_NUMBER {
        return Err(Rule::MolfileNumber.at(at));
    }
    if two == NO_NUMBER {
        return Err(Rule::MolfileNumber.at(at));
    }
    Ok(Numbers {
        one,
        two,
        next: l.next,
    })
}

// The header and the counts line.
fn counts_line(d: &[u8]) -> Result<Numbers, Refusal>
    ensures { result ≡ said_numbers d.now (counts_place d.now) (counts_reply d.now) }
{
    let at = header(d)?;
    two_numbers(d, at)
}

fn is_h(b: u8) -> bool
    ensures { result ≡ is_h b }
{
    b == 72
}

// Whether three characters are one H and otherwise blanks.
fn one_h(a: u8, b: u8, c: u8) -> bool
    ensures { result ≡ one_h a b c }
{
    if is_h(a) {
        if text::is_blank(b) {
            return text::is_blank(c);
        }
        return false;
    }
    if text::is_blank(a) {
        if is_h(b) {
            return text::is_blank(c);
        }
        if text::is_blank(b) {
            return is_h(c);
        }
    }
    false
}

// A character of the symbol of an atom line, of which so many characters are there; past its end it is blank.
fn symbol(d: &[u8], at: usize, chars: usize, k: usize) -> u8
    requires { (k ≤ 2) × (chars ≡ line_chars d.now at) × (at + chars ≤ length d.now) }
    ensures { result ≡ symbol_at d.now at k }
{
    if 31 + k < chars {
        return d[at + 31 + k];
    }
    BLANK
}

// The mark of an atom line: 1 for a hydrogen, else 0.
fn mark(d: &[u8], at: usize, chars: usize) -> u8
    requires { (chars ≡ line_chars d.now at) × (at + chars ≤ length d.now) }
    ensures { result ≡ mark_of (hydrogen_at d.now at) }
{
    let a = symbol(d, at, chars, 0);
    let b = symbol(d, at, chars, 1);
    let c = symbol(d, at, chars, 2);
    if one_h(a, b, c) { 1 } else { 0 }
}

// The atom lines from a place on, and their marks.
fn atoms(d: &[u8], from: usize, n: usize, marks: &mut [u8]) -> Result<usize, Refusal>
    requires { (from ≡ atom_line_place d.now 0) × (n ≤ length marks.old) }
    ensures { AtomsRead d.now n marks.old marks.new result }
{
    let mut at = from;
    for i in 0..n {
        let l = line(d, at, ATOM_LINE)?;
        marks[i] = mark(d, at, l.chars);
        at = l.next;
    }
    Ok(at)
}

// A bond line: 25, 26, then 27.
fn bond_line(d: &[u8], at: usize, n: usize) -> Result<Numbers, Refusal>
    ensures { result ≡ said_numbers d.now at (bond_reply n d.now at) }
{
    let x = two_numbers(d, at)?;
    if reply::is_outside(n, x.one) {
        return Err(Rule::MolfileBondEnd.at(at));
    }
    if reply::is_outside(n, x.two) {
        return Err(Rule::MolfileBondEnd.at(at));
    }
    Ok(x)
}

// The bond lines from a place on, and their ends.
fn bonds(
    d: &[u8],
    from: usize,
    n: usize,
    m: usize,
    ones: &mut [u16],
    twos: &mut [u16],
) -> Result<usize, Refusal>
    requires { (from ≡ bond_line_place d.now 0) × (n ≡ atom_line_count d.now) × (n ≤ most) × (m ≤ length ones.old) × (m ≤ length twos.old) }
    ensures { BondsRead d.now m ones.old twos.old ones.new twos.new result }
{
    let mut at = from;
    for k in 0..m {
        let x = bond_line(d, at, n)?;
        ones[k] = x.one as u16;
        twos[k] = x.two as u16;
        at = x.next;
    }
    Ok(at)
}

// The bond lines from a place on and their ends, and M  END: 25 to 27, or where the bond lines end.
fn rest(
    d: &[u8],
    from: usize,
    n: usize,
    m: usize,
    ones: &mut [u16],
    twos: &mut [u16],
) -> Result<usize, Refusal>
    requires { (from ≡ bond_line_place d.now 0) × (n ≡ atom_line_count d.now) × (n ≤ most) × (m ≤ length ones.old) × (m ≤ length twos.old)
        × (m ≡ bond_line_count d.now) }
    ensures { RestRead d.now ones.old twos.old ones.new twos.new result }
{
    let at = bonds(d, from, n, m, ones, twos)?;
    if text::line_starts(d, at, b"M  END") {
        return Ok(at);
    }
    let end = d.len();
    Err(Rule::MolfileLine.at(end))
}

// The lines after the counts: 25 to 27, the marks of the atoms and the ends of the bonds, and where these end.
fn lists(
    d: &[u8],
    x: Numbers,
    marks: &mut [u8],
    ones: &mut [u16],
    twos: &mut [u16],
) -> Result<usize, Refusal>
    requires { (x ≡ numbers_at d.now (counts_place d.now)) × (x.one ≤ length marks.old) × (x.one ≤ most) × (x.two ≤ length ones.old)
        × (x.two ≤ length twos.old) }
    ensures { ListsRead d.now marks.old ones.old twos.old marks.new ones.new
        twos.new result }
{
    let at = atoms(d, x.next, x.one, marks)?;
    rest(d, at, x.one, x.two, ones, twos)
}

// What is kept of a file whose counts line is read.
fn listed(text: &[u8], x: Numbers, out: &mut [u16]) -> Result<Kept, Refusal>
    requires { (x ≡ numbers_at text.now (counts_place text.now)) × (counts_reply text.now ≡ read tt) }
    ensures reply { result ≡ said_kept text.now (length out.old) (lines_reply text.now) }
    ensures numbers { out.new ≡ kept_numbers text.now out.old }
{
    let mut marks = [0u8; MOST];
    let mut ones = [0u16; MOST];
    let mut twos = [0u16; MOST];
    lists(text, x, &mut marks, &mut ones, &mut twos)?;
    let k = dropping::kept(x.one, x.two, &marks, &ones, &twos, out);
    Ok(k)
}

// What is kept of a molfile once hydrogens are dropped: how many atoms, and as many numbers of its bonds, two each, as there is room for, at the front of what
// is lent; later numbers stay. Or it is a refusal, 25 to 27 of its lines in file order, and no number changes.
pub fn kept_bonds(text: &[u8], out: &mut [u16]) -> Result<Kept, Refusal>
    ensures reply { result ≡ said_kept text.now (length out.old) (lines_reply text.now) }
    ensures numbers { out.new ≡ kept_numbers text.now out.old }
{
    let x = counts_line(text)?;
    listed(text, x, out)
}
