// The Szeged index of a block, with the term of each bond.
#![tactic(auto)]

ghost use Rattle.std.specs.Prelude.{◌≡◌, ℕ, ◌+◌, ◌≤◌, length};
ghost use Rattle.graph.specs.Graph.{wiener};
ghost use Rattle.reply.specs.Read.{read, as_result};
ghost use Rattle.block.specs.Block.{most_atoms, bonds_of, graph_of, block_reply};
ghost use Rattle.block.specs.Rows.{half_table};
ghost use Rattle.szeged.specs.Reply.{szeged_reply, szeged_entries};
ghost use Rattle.szeged.specs.Work.{CloserCounted, Product, TermsTask, Done};

use block::DistanceRow;
use half::{Half, PAIRS};
use reply::{Refusal, Rule, wide};

// How many of the first n atoms have a smaller entry in the row one than in the row two.
fn nearer(n: usize, one: &DistanceRow, two: &DistanceRow) -> u64
    requires { n ≤ most_atoms }
    ensures { CloserCounted n one.now two.now result }
{
    let mut count: u8 = 0;
    for x in 0..n {
        count += (one[x] < two[x]) as u8;
    }
    wide(count)
}

// The term of a bond of a and b, by half of the distances.
fn term(n: usize, half: &Half, a: u8, b: u8) -> u64
    requires { n ≤ most_atoms }
    ensures { Product n half.now a b result }
{
    let one = half::row(half, a as usize);
    let two = half::row(half, b as usize);
    let p = nearer(n, &one, &two);
    let q = nearer(n, &two, &one);
    p * q
}

// Puts the term of each bond into the lent entries, and adds them up.
fn fill(n: usize, bonds: &[u8], half: &Half, out: &mut [u64]) -> u64
    requires { TermsTask n bonds.now half.now out.old }
    ensures { Done n bonds.now out.old out.new result }
{
    let m = bonds.len() / 2;
    let mut total: u64 = 0;
    for k in 0..m {
        let t = term(n, half, bonds[2 * k], bonds[2 * k + 1]);
        out[k] = t;
        total += t;
    }
    total
}

// The answer for a block that is not refused, by half of its distances.
fn answered(n: usize, bonds: &[u8], half: &Half, out: &mut [u64]) -> Result<u64, Refusal>
    requires { (block_reply n bonds.now ≡ read tt) × (half.now ≡ half_table n bonds.now) }
    ensures reply { result ≡ as_result (szeged_reply n bonds.now (length out.old)) }
    ensures entries { out.new ≡ szeged_entries n bonds.now out.old }
{
    if out.len() < bonds.len() / 2 {
        return Err(Rule::ShortOutput.at(0));
    }
    Ok(fill(n, bonds, half, out))
}

// The Szeged index of a block. The reply is the index; the entry of each bond, in list order, is its term, and later entries stay. Or it is a
// refusal, and no entry changes: the block's, then 9 where there are fewer entries than bonds. Where there is one bond fewer than atoms, the index is W.
pub fn terms(n: usize, bonds: &[u8], out: &mut [u64]) -> Result<u64, Refusal>
    ensures reply { result ≡ as_result (szeged_reply n bonds.now (length out.old)) }
    ensures entries { out.new ≡ szeged_entries n bonds.now out.old }
    ensures tree { (w : ℕ) → result ≡ Ok w → length (bonds_of bonds.now) + 1 ≡ n → w ≡ wiener (graph_of n bonds.now) }
{
    let mut half = [0u8; PAIRS];
    block::halved(n, bonds, &mut half)?;
    answered(n, bonds, &half, out)
}
