// Whether a deck's molecule is a molecule that is listed atom by atom, by a matching that somebody hands in. Who made the deck and the matching need not be
// believed: after a yes the two differ only in the numbering of their atoms.
#![tactic(auto)]

ghost use Rattle.std.specs.Prelude.{◌≡◌, Ok, ◌&&◌, ◌+◌, ◌*◌, ◌/◌, ◌^◌, ◌≤◌, ◌<◌, eqb, length};
ghost use Rattle.graph.specs.Graph.{bond, joins, any_joins};
ghost use Rattle.reply.specs.Read.{read, as_result};
ghost use Rattle.block.specs.Block.{bonds_of, graph_of};
ghost use Rattle.deck.specs.Deck.{deck_reply};
ghost use Rattle.deck.specs.Molecule.{molecule_of};
ghost use Rattle.deck.specs.Sound.{WholeDeck};
ghost use Rattle.deck.specs.declared.Form.TheVariants.{Composed};
ghost use Rattle.deck.specs.Placed.{deck_of};
ghost use Rattle.whole.specs.Work.{most_start, most_numbers};
ghost use Rattle.matched.specs.Matched.{placed_number, partners, partner, is_lost, is_loose, carried, first_atom, first_bond, match_place, answer_at, match_answer, match_reply};
ghost use Rattle.matched.specs.Work.{is_taken, is_amiss};

use deck::{Form, Layout};
use reply::{Refusal, Rule, is_outside, wide_two};

// The most atoms of a deck's molecule, and the most numbers that its bonds take.
const ATOMS: usize = 2048;

const NUMBERS: usize = 12352;

// The molecules are the same but for the numbering, or where they first differ.
#[derive(Clone, Copy, Debug, PartialEq, Eq)]
pub enum Match {
    Same,
    Differs(usize),
}

// The number in the whole molecule of atom a of placement p, or 0.
fn number_in(d: &[u8], deck: Layout, p: u16, a: u16) -> usize
    ensures { result ≡ placed_number d.now (deck_of deck) p a }
{
    if deck::is_missing(d, deck, p as usize, a as usize) {
        return 0;
    }
    whole::start_of(d, deck, p - 1) + a as usize
}

// Puts every atom's partner.
fn put_partners(d: &[u8], deck: Layout, matching: &[u16], to: &mut [u16])
    requires { WholeDeck d.now (deck_of deck) × (2 * length to.old ≤ length matching.now) }
    ensures { to.new ≡ partners d.now (deck_of deck) matching.now (length to.old) }
{
    for i in 0..to.len() {
        let x = number_in(d, deck, matching[2 * i], matching[2 * i + 1]);
        to[i] = x as u16;
    }
}

// The partner of an atom, or 0.
fn partner(to: &[u16], v: usize) -> usize
    ensures { result ≡ partner to.now v }
{
    if is_outside(to.len(), v) {
        return 0;
    }
    wide_two(to[v - 1])
}

// Whether one of the atoms up to u has a partner.
fn is_taken(to: &[u16], last: usize, x: usize) -> bool
    ensures { result ≡ is_taken to.now last x }
{
    let mut u = last;
    while 0 < u {
        if partner(to, u) == x {
            return true;
        }
        u -= 1;
    }
    false
}

// Whether an atom has no partner, or that of an earlier one.
fn is_lost(to: &[u16], v: usize) -> bool
    requires { 1 ≤ v }
    ensures { result ≡ is_lost to.now v }
{
    let x = partner(to, v);
    x == 0 || is_taken(to, v - 1, x)
}

fn first_lost(to: &[u16], n: usize) -> usize
    requires { n ≤ most_start }
    ensures { result ≡ first_atom n 1 (is_lost to.now) }
{
    for v in 1..=n {
        if is_lost(to, v) {
            return v;
        }
    }
    0
}

// Whether two numbers are two others, in this order.
fn is_pair(one: usize, two: usize, x: usize, y: usize) -> bool
    ensures { result ≡ (eqb one x && eqb two y) }
{
    if one != x {
        return false;
    }
    two == y
}

// Whether a bond joins two atoms.
fn is_between(one: usize, two: usize, x: usize, y: usize) -> bool
    ensures { result ≡ joins (bond one two) x y }
{
    is_pair(one, two, x, y) || is_pair(one, two, y, x)
}

// Whether a bond of a list joins two atoms.
fn is_bonded(bonds: &[u16], x: usize, y: usize) -> bool
    ensures { result ≡ any_joins (bonds_of bonds.now) x y }
{
    let mut i = 0;
    while 2 <= bonds.len() - i {
        if is_between(wide_two(bonds[i]), wide_two(bonds[i + 1]), x, y) {
            return true;
        }
        i += 2;
    }
    false
}

// Whether a bond of a list joins two atoms by the partners of its ends.
fn is_carried(bonds: &[u16], to: &[u16], x: usize, y: usize) -> bool
    ensures { result ≡ any_joins (carried to.now (bonds_of bonds.now)) x y }
{
    let mut i = 0;
    while 2 <= bonds.len() - i {
        let one = partner(to, wide_two(bonds[i]));
        let two = partner(to, wide_two(bonds[i + 1]));
        if is_between(one, two, x, y) {
            return true;
        }
        i += 2;
    }
    false
}

// Whether a bond has an end that is none of n atoms, or the deck does not bond the partners of its ends.
fn is_loose(n: usize, bonds: &[u16], whole: &[u16], to: &[u16], one: usize, two: usize) -> bool
    ensures { result ≡ is_loose (graph_of n bonds.now) (graph_of n whole.now) to.now (bond one two) }
{
    if is_outside(n, one) || is_outside(n, two) {
        return true;
    }
    !is_bonded(whole, partner(to, one), partner(to, two))
}

// Whether a bond is amiss: one that is listed, or one of the deck that is not.
fn is_amiss(
    listed: bool,
    n: usize,
    bonds: &[u16],
    whole: &[u16],
    to: &[u16],
    one: usize,
    two: usize,
) -> bool
    ensures { result ≡ is_amiss listed (graph_of n bonds.now) (graph_of n whole.now) to.now (bond one two) }
{
    if listed {
        return is_loose(n, bonds, whole, to, one, two);
    }
    !is_carried(bonds, to, one, two)
}

// The place of the first bond of a list that is amiss, or 0. The first of the list has the place given.
fn first_amiss(
    listed: bool,
    n: usize,
    bonds: &[u16],
    whole: &[u16],
    to: &[u16],
    list: &[u16],
    place: usize,
) -> usize
    requires { place + length list.now / 2 < 2 ^ 64 }
    ensures { result ≡ first_bond place (is_amiss listed (graph_of n bonds.now) (graph_of n whole.now) to.now) (bonds_of list.now) }
{
    let mut at = place;
    let mut i = 0;
    while 2 <= list.len() - i {
        let one = wide_two(list[i]);
        let two = wide_two(list[i + 1]);
        if is_amiss(listed, n, bonds, whole, to, one, two) {
            return at;
        }
        at += 1;
        i += 2;
    }
    0
}

// The first place where the two molecules differ, or 0.
fn match_place(n: usize, bonds: &[u16], whole: &[u16], to: &[u16]) -> usize
    requires { (n ≤ most_start) × (length whole.now ≤ most_numbers) }
    ensures { result ≡ match_place (graph_of n bonds.now) (graph_of n whole.now) to.now }
{
    let lost = first_lost(to, n);
    if lost != 0 {
        return lost;
    }
    let loose = first_amiss(true, n, bonds, whole, to, bonds, n + 1);
    if loose != 0 {
        return loose;
    }
    first_amiss(false, n, bonds, whole, to, whole, n + bonds.len() / 2 + 1)
}

fn answer_at(place: usize) -> Match
    ensures { result ≡ answer_at place }
{
    if place == 0 {
        return Match::Same;
    }
    Match::Differs(place)
}

// The answer for as many atoms as the deck's molecule has.
fn answer_placed(
    d: &[u8],
    deck: Layout,
    n: usize,
    bonds: &[u16],
    matching: &[u16],
    whole: &[u16],
    to: &mut [u16],
) -> Match
    requires { WholeDeck d.now (deck_of deck) × (n ≤ most_start) × (n ≤ length to.old) × (2 * n ≤ length matching.now) × (length whole.now ≤ most_numbers) }
    ensures { result ≡ answer_at (match_place (graph_of n bonds.now) (graph_of n whole.now) (partners d.now (deck_of deck) matching.now n)) }
{
    put_partners(d, deck, matching, &mut to[..n]);
    let place = match_place(n, bonds, whole, &to[..n]);
    answer_at(place)
}

// The answer of a deck that was read.
fn answer_in(
    d: &[u8],
    deck: Layout,
    n: usize,
    bonds: &[u16],
    matching: &[u16],
    numbers: &mut [u16],
    to: &mut [u16],
) -> Result<Match, Refusal>
    requires { (deck_reply Composed d.now ≡ read (deck_of deck)) × (2 * n ≤ length matching.now) × (most_numbers ≤ length numbers.old) × (most_start ≤ length to.old) }
    ensures { result ≡ Ok (match_answer (graph_of n bonds.now) (molecule_of d.now (deck_of deck)) (partners d.now (deck_of deck) matching.now n)) }
{
    let c = whole::bonds(d, numbers)?;
    if c.atoms != n {
        return Ok(Match::Differs(0));
    }
    let end = 2 * c.bonds;
    Ok(answer_placed(d, deck, n, bonds, matching, &numbers[..end], to))
}

// The same with room for the deck's bonds and for partners.
fn answer(
    d: &[u8],
    deck: Layout,
    n: usize,
    bonds: &[u16],
    matching: &[u16],
) -> Result<Match, Refusal>
    requires { (deck_reply Composed d.now ≡ read (deck_of deck)) × (2 * n ≤ length matching.now) }
    ensures { result ≡ Ok (match_answer (graph_of n bonds.now) (molecule_of d.now (deck_of deck)) (partners d.now (deck_of deck) matching.now n)) }
{
    let mut numbers = [0u16; NUMBERS];
    let mut to = [0u16; ATOMS];
    answer_in(d, deck, n, bonds, matching, &mut numbers, &mut to)
}

// Whether a matching makes the molecule of a deck without a sheet that of a list: for each of the list's atoms, 1 to `atoms`, it has two numbers, a placement
// and an atom there. The bonds are pairs of atoms; an odd last number is no bond. `Differs` says the first place that fails: 0 for another number of atoms, 1 to n
// an atom without a partner of its own, n + e bond e of m in the list that the deck does not have, n + m + e bond e of the deck, as `whole::bonds` writes it,
// that the list does not have. Or the deck's refusal, then 9 where the matching is too short.
pub fn check(d: &[u8], atoms: usize, bonds: &[u16], matching: &[u16]) -> Result<Match, Refusal>
    ensures { result ≡ as_result (match_reply d.now atoms bonds.now matching.now) }
{
    let read = compose::read_deck(d, Form::Composed);
    read.reply?;
    if matching.len() / 2 < atoms {
        return Err(Rule::ShortOutput.at(0));
    }
    answer(d, read.layout, atoms, bonds, matching)
}
