// Bond contributions: path counts, the common denominator D, and what each bond answers for, one starting atom at a time.
//
// The starts come one after the other, and the path counts of a start are worked out once, in one row (sweeps.rt); no square of counts is kept. D is
// taken in start by start; where it grows, the entries so far are multiplied by the factor. Counts stop just above the limit of D, so that no bound
// on them is owed. The entries stand in an array of the function's own and go into the lent ones at the end: refusal 8 may come late, and must change
// nothing.
#![tactic(auto)]

ghost use Rattle.std.specs.Prelude.{◌≡◌, length};
ghost use Rattle.reply.specs.Read.{read, as_result};
ghost use Rattle.block.specs.Block.{graph_of, block_reply};
ghost use Rattle.block.specs.Rows.{far_of, half_table};
ghost use Rattle.block.specs.Opened.{neighbours_of};
ghost use Rattle.shares.specs.Reply.{shares_reply, shares_entries};

use block::{ATOMS, BYTES, Farthest, Neighbours};
use half::{Half, PAIRS};
use reply::{Refusal, Rule};

mod common;
mod flows;
mod sweeps;

// A seat for each atom, numbered from 1; seat 0 is free.
const SEATS: usize = ATOMS + 1;

// The most bonds of a block: two bytes are one.
pub const BONDS: usize = BYTES / 2;

// The most that D may be, and where path counts stop.
const MOST: u64 = 1_000_000;

const CAP: u64 = MOST + 1;

// The most that a bond is passed from one start: D for each atom.
const FULL: u64 = ATOMS as u64 * MOST;

// The answer for a block that is not refused.
fn answered(
    n: usize,
    bonds: &[u8],
    near: &Neighbours,
    half: &Half,
    far: &Farthest,
    out: &mut [u64],
) -> Result<u64, Refusal>
    requires { (block_reply n bonds.now ≡ read tt) × (near.now ≡ neighbours_of (graph_of n bonds.now)) × (half.now ≡ half_table n bonds.now)
        × (far.now ≡ far_of n bonds.now) }
    ensures reply { result ≡ as_result (shares_reply n bonds.now (length out.old)) }
    ensures entries { out.new ≡ shares_entries n bonds.now out.old }
{
    if out.len() < bonds.len() / 2 {
        return Err(Rule::ShortOutput.at(0));
    }
    let mut entries = [0u64; BONDS];
    let d = flows::fill(n, bonds, near, half, far, &mut entries);
    if MOST < d {
        return Err(Rule::Denominator.at(0));
    }
    flows::put(bonds.len() / 2, &entries, out);
    Ok(d)
}

// The contributions of a block's bonds. The reply is D; the entry of each bond, in list order, is D times its contribution, and later entries
// stay. Or it is a refusal, and no entry changes: the block's, then 9 where there are fewer entries than bonds, then 8 where D is above the most.
pub fn contributions(n: usize, bonds: &[u8], out: &mut [u64]) -> Result<u64, Refusal>
    ensures reply { result ≡ as_result (shares_reply n bonds.now (length out.old)) }
    ensures entries { out.new ≡ shares_entries n bonds.now out.old }
{
    let mut half = [0u8; PAIRS];
    let mut far = [0u8; ATOMS];
    let mut near = [0u64; ATOMS];
    block::table(n, bonds, &mut near, &mut half, &mut far)?;
    answered(n, bonds, &near, &half, &far, out)
}
