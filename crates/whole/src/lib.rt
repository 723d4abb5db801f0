// The molecule of a deck written out: every bond as two atoms' numbers in the whole molecule. Block by block, in the order of the placements; behind each
// later block's bonds stands the bond that joins it.
#![tactic(auto)]

ghost use Rattle.std.specs.Prelude.{◌≡◌, [], ◌∷◌, ◌+◌, ◌*◌, ◌≤◌, ◌<◌, length, set};
ghost use Rattle.std.proofs.lemmas.List.Edits.{sets};
ghost use Rattle.graph.specs.Assembly.{start_at};
ghost use Rattle.block.specs.Block.{most_bytes, said_molecule};
ghost use Rattle.deck.specs.Molecule.{graph_at, join_at};
ghost use Rattle.deck.specs.Sound.{WholeDeck};
ghost use Rattle.deck.specs.Placed.{deck_of};
ghost use Rattle.whole.specs.Whole.{pair_numbers, whole_reply, numbers_after};
ghost use Rattle.whole.specs.Work.{most_start, most_brought, most_numbers, over_atoms, over_numbers, block_numbers, joins_of, joining, brought, bonds_before};

use deck::{Form, Layout};
use reply::{Counts, Refusal, Rule, wide};

// Puts a number at a place, where there is room.
fn put(out: &mut [u16], at: usize, x: u16)
    ensures { out.new ≡ set out.old at x }
{
    if out.len() <= at {
        return;
    }
    out[at] = x;
}

// Puts a bond's two atoms.
fn put_bond(out: &mut [u16], at: usize, one: usize, two: usize)
    requires { (at ≤ over_numbers) × (one ≤ over_atoms) × (two ≤ over_atoms) }
    ensures { out.new ≡ sets out.old at (one ∷ (two ∷ [])) }
{
    put(out, at, one as u16);
    put(out, at + 1, two as u16);
}

// Puts a block's bonds, its atoms counted from a start on.
fn put_block(bonds: &[u8], start: usize, out: &mut [u16], at: usize)
    requires { (start ≤ most_start) × (at ≤ most_numbers) × (length bonds.now ≤ most_bytes) }
    ensures { out.new ≡ sets out.old at (block_numbers start bonds.now) }
{
    let mut i = 0;
    while 2 <= bonds.len() - i {
        let one = start + wide(bonds[i]) as usize;
        let two = start + wide(bonds[i + 1]) as usize;
        put_bond(out, at + i, one, two);
        i += 2;
    }
}

// How many atoms stand before the placement at an index.
pub fn start_of(d: &[u8], deck: Layout, k: u16) -> usize
    ensures { (result ≡ start_at (graph_at d.now (deck_of deck)) k) × (result ≤ 65535 * k) }
{
    let end = k as usize;
    let mut start = 0;
    for i in 0..end {
        let b = deck::block_at(d, deck, i);
        start += b.atoms as usize;
    }
    start
}

// Puts the bond that joins the placement at an index to its parent, and gives the place past it: the first has none.
fn put_join(d: &[u8], deck: Layout, k: usize, out: &mut [u16], at: usize) -> usize
    requires { WholeDeck d.now (deck_of deck) × (k < deck.placements) × (at ≤ over_numbers) }
    ensures numbers { out.new ≡ sets out.old at (pair_numbers (joining (graph_at d.now (deck_of deck)) (join_at d.now (deck_of deck)) k)) }
    ensures end { result ≡ at + 2 * length (joining (graph_at d.now (deck_of deck)) (join_at d.now (deck_of deck)) k) }
{
    if k == 0 {
        return at;
    }
    let p = deck::placement(d, deck.assembly, k);
    let there = start_of(d, deck, (p.parent as u16) - 1);
    let here = start_of(d, deck, k as u16);
    put_bond(
        out,
        at,
        there + wide(p.site) as usize,
        here + wide(p.own) as usize,
    );
    at + 2
}

// Puts what the placement at an index brings, its block's bonds and its join, and gives the place past them.
fn put_placed(d: &[u8], deck: Layout, k: usize, out: &mut [u16], at: usize) -> usize
    requires { WholeDeck d.now (deck_of deck) × (k < deck.placements) × (at ≤ most_numbers) }
    ensures numbers { out.new ≡ sets out.old at (pair_numbers (brought (graph_at d.now (deck_of deck)) (join_at d.now (deck_of deck)) k)) }
    ensures end { (result ≡ at + 2 * length (brought (graph_at d.now (deck_of deck)) (join_at d.now (deck_of deck)) k)) × (result ≤ at + most_brought) }
{
    let b = deck::block_at(d, deck, k);
    let bonds = assembly::bonds_part(d, b);
    let start = start_of(d, deck, k as u16);
    put_block(bonds, start, out, at);
    let next = at + 2 * (bonds.len() / 2);
    put_join(d, deck, k, out, next)
}

// How many bonds the placement at an index brings beside its block's.
fn joins_of(k: usize) -> usize
    ensures { (result ≡ joins_of k) × (result ≤ 1) }
{
    if k == 0 {
        return 0;
    }
    1
}

// How many bonds the molecule has.
fn bond_count(d: &[u8], deck: Layout) -> usize
    requires { WholeDeck d.now (deck_of deck) }
    ensures { (result ≡ length (bonds_before (graph_at d.now (deck_of deck)) (join_at d.now (deck_of deck)) deck.placements)) × (2 * result ≤ most_numbers) }
{
    let mut m = 0;
    for k in 0..deck.placements {
        let b = deck::block_at(d, deck, k);
        let bonds = assembly::bonds_part(d, b);
        m += bonds.len() / 2 + joins_of(k);
    }
    m
}

// Puts what every placement brings.
fn put_all(d: &[u8], deck: Layout, out: &mut [u16])
    requires { WholeDeck d.now (deck_of deck) }
    ensures { out.new ≡ sets out.old 0 (pair_numbers (bonds_before (graph_at d.now (deck_of deck)) (join_at d.now (deck_of deck)) deck.placements)) }
{
    let mut at = 0;
    for k in 0..deck.placements {
        let next = put_placed(d, deck, k, out, at);
        at = next;
    }
}

// The molecule of a deck without a sheet: how many atoms and bonds it has, and its bonds at the front of the lent numbers, two each; later numbers stay. Or
// the deck's refusal, then 9 where fewer numbers are lent than the bonds take, and no number changes.
pub fn bonds(d: &[u8], out: &mut [u16]) -> Result<Counts, Refusal>
    ensures reply { result ≡ said_molecule (whole_reply d.now (length out.old)) }
    ensures numbers { out.new ≡ numbers_after (whole_reply d.now (length out.old)) out.old }
{
    let read = compose::read_deck(d, Form::Composed);
    read.reply?;
    let deck = read.layout;
    let m = bond_count(d, deck);
    if out.len() < 2 * m {
        return Err(Rule::ShortOutput.at(0));
    }
    let atoms = start_of(d, deck, deck.placements as u16);
    put_all(d, deck, out);
    Ok(Counts { atoms, bonds: m })
}
