// Claims of a molecule, judged: numbers that a program printed of a deck's molecule or of a block.
#![tactic(auto)]

ghost use Rattle.std.specs.Prelude.{◌≡◌, true, ◌+◌, ◌-◌, ◌*◌, ◌/◌, ◌≤◌};
ghost use Rattle.reply.specs.Read.{read};
ghost use Rattle.block.specs.Block.{most_bytes, graph_of, block_reply};
ghost use Rattle.block.specs.Index.{indices_of};
ghost use Rattle.judging.specs.Judging.{said_verdict};
ghost use Rattle.claiming.specs.Asked.{asks};
ghost use Rattle.claiming.specs.Alike.{AlikeIn};
ghost use Rattle.szeged.specs.Szeged.{szeged};
ghost use Rattle.sets.specs.Sets.{hosoya, merrifield_simmons};
ghost use Rattle.balaban.specs.Balaban.{reckoned};
ghost use Rattle.claims.specs.Molecules.{deck_claims_reply, is_tree, of_tree, block_fields, block_claims_reply};

use block::Indices;
use claiming::{is_asked, judged};
use judging::Verdict;
use sets::Sets;
use sheets::fields_of;

// The most bonds of a block.
const BONDS: usize = 192;

// Claims of a deck without a sheet: accepted, or the first wrong claim, or the deck's refusal, then 36, and claim by claim 35 and 37.
pub fn of_deck(d: &[u8], claims: &[u8]) -> Verdict
    ensures { result ≡ said_verdict (deck_claims_reply d.now claims.now) }
{
    match judging::compose(d) {
        Err(refusal) => Verdict::Refused(refusal),
        Ok(x) => {
            let own = fields_of(x);
            judged(claims, &own, 0, true)
        }
    }
}

// The Szeged index of a block that is not refused.
fn szeged_of(n: usize, bonds: &[u8]) -> u64
    requires { block_reply n bonds.now ≡ read tt }
    ensures { result ≡ szeged (graph_of n bonds.now) }
{
    let mut entries = [0u64; BONDS];
    match szeged::terms(n, bonds, &mut entries) {
        Err(_) => 0,
        Ok(s) => s,
    }
}

// The two numbers of a tree, 0 of another block.
fn sets_of(n: usize, bonds: &[u8]) -> Sets
    requires { block_reply n bonds.now ≡ read tt }
    ensures bonds { result.bonds ≡ of_tree (is_tree (graph_of n bonds.now)) (hosoya (graph_of n bonds.now)) }
    ensures atoms { result.atoms ≡ of_tree (is_tree (graph_of n bonds.now)) (merrifield_simmons (graph_of n bonds.now)) }
{
    match sets::count(n, bonds) {
        Err(_) => Sets { bonds: 0, atoms: 0 },
        Ok(s) => s,
    }
}

// J.
fn fine_of(n: usize, bonds: &[u8]) -> u64
    requires { block_reply n bonds.now ≡ read tt }
    ensures { result ≡ reckoned 1 (graph_of n bonds.now) }
{
    match balaban::index(n, bonds) {
        Err(_) => 0,
        Ok(j) => j,
    }
}

// The three again, each where it is asked for; else 0.
fn szeged_asked(n: usize, bonds: &[u8], claims: &[u8]) -> u64
    requires { block_reply n bonds.now ≡ read tt }
    ensures { asks 7 claims.now ≡ true → result ≡ szeged (graph_of n bonds.now) }
{
    if is_asked(claims, 7) {
        return szeged_of(n, bonds);
    }
    0
}

fn sets_asked(n: usize, bonds: &[u8], claims: &[u8]) -> Sets
    requires { block_reply n bonds.now ≡ read tt }
    ensures bonds { asks 8 claims.now ≡ true → result.bonds ≡ of_tree (is_tree (graph_of n bonds.now)) (hosoya (graph_of n bonds.now)) }
    ensures atoms { asks 9 claims.now ≡ true → result.atoms ≡ of_tree (is_tree (graph_of n bonds.now)) (merrifield_simmons (graph_of n bonds.now)) }
{
    if is_asked(claims, 8) {
        return sets_of(n, bonds);
    }
    if is_asked(claims, 9) {
        return sets_of(n, bonds);
    }
    Sets { bonds: 0, atoms: 0 }
}

fn fine_asked(n: usize, bonds: &[u8], claims: &[u8]) -> u64
    requires { block_reply n bonds.now ≡ read tt }
    ensures { asks 10 claims.now ≡ true → result ≡ reckoned 1 (graph_of n bonds.now) }
{
    if is_asked(claims, 10) {
        return fine_of(n, bonds);
    }
    0
}

// The ten fields, those of them at least that are asked for.
fn block_fields(n: usize, bonds: &[u8], claims: &[u8], x: Indices) -> [u64; 10]
    requires { (block_reply n bonds.now ≡ read tt) × (x ≡ indices_of (graph_of n bonds.now)) }
    ensures { AlikeIn claims.now result (block_fields (graph_of n bonds.now)) }
{
    let s = szeged_asked(n, bonds, claims);
    let t = sets_asked(n, bonds, claims);
    let j = fine_asked(n, bonds, claims);
    [
        x.atoms, x.w, x.even, x.odd, x.polarity, x.largest, s, t.bonds, t.atoms, j,
    ]
}

// How far J may lie above the answer, for n atoms and m bonds.
fn above(n: usize, m: usize) -> u64
    requires { (m ≤ most_bytes) × (n ≤ m + 1) }
    ensures { result ≡ 1 + m * m / (m + 2 - n) }
{
    let d = m + 2 - n;
    1 + (m * m / d) as u64
}

// Claims of a lone block: accepted, or the first wrong claim, or the block's refusal, then 36, claim by claim 35 and 37, and 34.
pub fn of_block(n: usize, bonds: &[u8], claims: &[u8]) -> Verdict
    ensures { result ≡ said_verdict (block_claims_reply n bonds.now claims.now) }
{
    match reach::measure(n, bonds) {
        Err(refusal) => Verdict::Refused(refusal),
        Ok(x) => {
            let own = block_fields(n, bonds, claims, x);
            let m = bonds.len() / 2;
            let most = above(n, m);
            let tree = m + 1 == n;
            judged(claims, &own, most, tree)
        }
    }
}
