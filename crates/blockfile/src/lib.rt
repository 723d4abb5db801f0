// A molfile read as a block.
#![tactic(auto)]

ghost use Rattle.std.specs.Prelude.{◌≡◌, map, ◌≤◌, length};
ghost use Rattle.std.proofs.lemmas.List.Edits.{sets};
ghost use Rattle.block.specs.Block.{block_reply};
ghost use Rattle.molfile.specs.Molfile.{fitting_reply, molfile_reply};
ghost use Rattle.molfile.specs.Said.{said_answer, said_molfile, filled_bonds, molfile_bytes};
ghost use Rattle.blockfile.specs.Bytes.{low};

use molfile::kept_bonds;
use reply::{Counts, Refusal, Rule};

// One number more than the bonds of a block may take: with it they are too many, whatever comes after.
const ROW: usize = block::BYTES + 1;

// The answer for a block: its refusals, 9 for a lent output too short, or its bytes.
fn answer(n: usize, xs: &[u8], out: &mut [u8]) -> Result<Counts, Refusal>
    ensures reply { result ≡ said_answer n xs.now (fitting_reply block_reply n xs.now (length out.old)) }
    ensures bytes { out.new ≡ filled_bonds (fitting_reply block_reply n xs.now (length out.old)) xs.now out.old }
{
    block::check(n, xs)?;
    if out.len() < xs.len() {
        return Err(Rule::ShortOutput.at(0));
    }
    text::put(out, 0, xs);
    Ok(Counts {
        atoms: n,
        bonds: xs.len() / 2,
    })
}

fn low(x: u16) -> u8
    ensures { result ≡ low x }
{
    (x % 256) as u8
}

// The last byte of each number, at the front of what is lent.
fn narrow(xs: &[u16], out: &mut [u8])
    requires { length xs.now ≤ length out.old }
    ensures { out.new ≡ sets out.old 0 (map low xs.now) }
{
    for i in 0..xs.len() {
        out[i] = low(xs[i]);
    }
}

// Reads a molfile as a block: how many atoms and bonds it has, its bonds at the front of the lent output, two bytes each, and later bytes stay. Or it is a
// refusal, and no byte changes: 25 to 27 of its lines in file order, the block's over the kept bonds, then 9 where fewer bytes are lent than these take.
pub fn read(text: &[u8], out: &mut [u8]) -> Result<Counts, Refusal>
    ensures reply { result ≡ said_molfile text.now (molfile_reply text.now (length out.old)) }
    ensures bytes { out.new ≡ molfile_bytes text.now out.old }
{
    let mut pairs = [0u16; ROW];
    let k = kept_bonds(text, &mut pairs)?;
    let numbers = k.numbers;
    let mut bytes = [0u8; ROW];
    narrow(&pairs[..numbers], &mut bytes);
    answer(k.atoms, &bytes[..numbers], out)
}
