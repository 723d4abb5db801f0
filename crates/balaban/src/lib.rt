// Balaban's J of a block, in whole numbers.
#![tactic(auto)]

ghost use Rattle.std.specs.Prelude.{◌≡◌, ◌+◌, ◌-◌, ◌*◌, ◌/◌, ◌≤◌};
ghost use Rattle.graph.specs.Graph.{Within};
ghost use Rattle.block.specs.Block.{most_atoms, most_bytes, graph_of};
ghost use Rattle.block.specs.Sums.{entry};
ghost use Rattle.balaban.specs.Balaban.{bound, largest_root, reckoned, balaban_reply};
ghost use Rattle.balaban.specs.Work.{unit, most_sum, RootsTask};
ghost use Rattle.reply.specs.Read.{as_result};

use block::ATOMS;
use reply::Refusal;

mod roots;

// The sum of atom v.
fn sum_of(sums: &[u64; ATOMS], v: u8) -> u64
    requires { Within most_atoms v × (entry sums.now v ≤ most_sum) }
    ensures { (result ≡ entry sums.now v) × (result ≤ most_sum) }
{
    let i = v as usize;
    sums[i - 1]
}

// What the bond of atoms u and v brings.
fn brings(sums: &[u64; ATOMS], u: u8, v: u8) -> u64
    requires { Within most_atoms u × (entry sums.now u ≤ most_sum) × Within most_atoms v × (entry sums.now v ≤ most_sum) }
    ensures { (result ≡ largest_root (bound 1) (entry sums.now u * entry sums.now v)) × (result ≤ unit) }
{
    let s = sum_of(sums, u);
    let t = sum_of(sums, v);
    roots::largest(s * t)
}

// m times the sum, divided by m - n + 2.
fn divided(m: usize, total: u64, n: usize) -> u64
    requires { (m ≤ most_bytes) × (total ≤ unit * most_bytes) × (n ≤ m + 1) }
    ensures { result ≡ m * total / (m + 2 - n) }
{
    let d = m + 2 - n;
    m as u64 * total / d as u64
}

// The reckoning by the vertex sums.
fn reckon(n: usize, bonds: &[u8], sums: &[u64; ATOMS]) -> u64
    requires { RootsTask n bonds.now sums.now }
    ensures { result ≡ reckoned 1 (graph_of n bonds.now) }
{
    let m = bonds.len() / 2;
    let mut total: u64 = 0;
    for k in 0..m {
        total += brings(sums, bonds[2 * k], bonds[2 * k + 1]);
    }
    divided(m, total, n)
}

// Balaban's J of a block, times 10^9 and in whole numbers, or the block's refusal.
pub fn index(n: usize, bonds: &[u8]) -> Result<u64, Refusal>
    ensures { result ≡ as_result (balaban_reply n bonds.now) }
{
    let mut sums = [0u64; ATOMS];
    reach::vertex_sums(n, bonds, &mut sums)?;
    Ok(reckon(n, bonds, &sums))
}
