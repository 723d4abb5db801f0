// The neighbour text of document 001, table 1, read into a block, and the text of a block.
//
// The reader goes through the bytes once for 21, through the numbers once for 22 and the number of bonds, and once more to keep the bonds; the lent
// output is touched when nothing can refuse any more. An end above 255 is kept as 255, which no block has as an atom either. The writer puts the text
// into bytes of its own, with room for every block, so that its length is known before the output is touched.
#![tactic(auto)]

ghost use Rattle.std.specs.Prelude.{◌≡◌, ◌≤◌, length};
ghost use Rattle.block.specs.Block.{most_atoms, said_molecule};
ghost use Rattle.adjacency.specs.Neighbours.{bonds_in, block_of, neighbours_reply, bytes_after};
ghost use Rattle.adjacency.specs.Written.{text_by, neighbours_write_reply, text_after};
ghost use Rattle.adjacency.specs.Work.{steps_at, FewBonds, Sized, kept_reply, given_reply, joined_in, longest};
ghost use Rattle.neighbours.specs.Said.{said_neighbours_written};

use block::{ATOMS, BYTES, Neighbours};
use reply::{Counts, Refusal, Rule};

mod bonds;
mod scan;
mod writing;

// The first number from a place on, where it stands, and the place behind it.
#[derive(Clone, Copy)]
struct Token {
    pub value: usize,
    pub place: usize,
    pub next: usize,
}

// How many bytes were put, and whether a label above the atom count stands behind them.
#[derive(Clone, Copy)]
struct Reach {
    pub bytes: usize,
    pub high: bool,
}

// 3 to 7 of bonds after which a label above n stands, or none, then 9.
fn kept(n: usize, bonds: &[u8], high: bool, out: &mut [u8]) -> Result<Counts, Refusal>
    requires { Sized n bonds.now }
    ensures reply { result ≡ said_molecule (kept_reply n bonds.now high (length out.old)) }
    ensures bytes { out.new ≡ bytes_after (kept_reply n bonds.now high (length out.old)) out.old }
{
    bonds::judged(n, bonds, high)?;
    if out.len() < bonds.len() {
        return Err(Rule::ShortOutput.at(0));
    }
    text::put(out, 0, bonds);
    Ok(Counts {
        atoms: n,
        bonds: bonds.len() / 2,
    })
}

// 3 to 7 of the numbers from a place on, then 9, where 1 and 2 do not refuse.
fn bonds_of(text: &[u8], at: usize, n: usize, out: &mut [u8]) -> Result<Counts, Refusal>
    requires { (at ≤ length text.now) × FewBonds n (steps_at 0 text.now at) }
    ensures reply { result ≡ said_molecule (block_of n (steps_at 0 text.now at) (length out.old)) }
    ensures bytes { out.new ≡ bytes_after (block_of n (steps_at 0 text.now at) (length out.old)) out.old }
{
    let mut bytes = [0u8; BYTES];
    let reach = bonds::fill(text, at, n, &mut bytes);
    let len = reach.bytes;
    kept(n, &bytes[..len], reach.high, out)
}

// 1 to 7 of the numbers from a place on, after the count n, then 9; `count` of them are bonds.
fn block_of(
    text: &[u8],
    at: usize,
    n: usize,
    count: usize,
    out: &mut [u8],
) -> Result<Counts, Refusal>
    requires { (at ≤ length text.now) × (count ≡ length (bonds_in (steps_at 0 text.now at))) }
    ensures reply { result ≡ said_molecule (block_of n (steps_at 0 text.now at) (length out.old)) }
    ensures bytes { out.new ≡ bytes_after (block_of n (steps_at 0 text.now at) (length out.old)) out.old }
{
    if n == 0 {
        return Err(Rule::AtomCount.at(0));
    }
    if ATOMS < n {
        return Err(Rule::AtomCount.at(0));
    }
    if BYTES / 2 < count {
        return Err(Rule::BondBytes.at(0));
    }
    bonds_of(text, at, n, out)
}

// The block of a text. The bonds stand at the front of the lent bytes, two bytes each, and later bytes stay; a refusal changes none.
pub fn read(text: &[u8], out: &mut [u8]) -> Result<Counts, Refusal>
    ensures reply { result ≡ said_molecule (neighbours_reply text.now (length out.old)) }
    ensures bytes { out.new ≡ bytes_after (neighbours_reply text.now (length out.old)) out.old }
{
    let fault = scan::fault(text);
    if fault < text.len() {
        return Err(Rule::TextByte.at(fault));
    }
    let count = scan::number(text, 0);
    if text.len() <= count.place {
        return Err(Rule::TextEnd.at(text.len()));
    }
    let k = scan::shape(text, count.next)?;
    block_of(text, count.next, count.value, k, out)
}

// The most bytes that the text of a block has.
const TEXT: usize = 8 * ATOMS + 2 * BYTES;

// Puts a text into the lent bytes, or 9.
fn given(bytes: &[u8], out: &mut [u8]) -> Result<u64, Refusal>
    ensures reply { result ≡ said_neighbours_written (given_reply bytes.now (length out.old)) }
    ensures bytes { out.new ≡ text_after (given_reply bytes.now (length out.old)) out.old }
{
    if out.len() < bytes.len() {
        return Err(Rule::ShortOutput.at(0));
    }
    text::put(out, 0, bytes);
    Ok(bytes.len() as u64)
}

// Writes the text of a block by its neighbours.
fn write_fine(n: usize, near: &Neighbours, out: &mut [u8]) -> Result<u64, Refusal>
    requires { (n ≤ most_atoms) × (length (text_by (joined_in near.now) n) ≤ longest) }
    ensures reply { result ≡ said_neighbours_written (given_reply (text_by (joined_in near.now) n) (length out.old)) }
    ensures bytes { out.new ≡ text_after (given_reply (text_by (joined_in near.now) n) (length out.old)) out.old }
{
    let mut bytes = [0u8; TEXT];
    let len = writing::text(&mut bytes, near, n);
    given(&bytes[..len], out)
}

// Writes the text of a block at the front of the lent bytes; later bytes stay, and a refusal changes none.
pub fn write(n: usize, bonds: &[u8], out: &mut [u8]) -> Result<u64, Refusal>
    ensures reply { result ≡ said_neighbours_written (neighbours_write_reply n bonds.now (length out.old)) }
    ensures bytes { out.new ≡ text_after (neighbours_write_reply n bonds.now (length out.old)) out.old }
{
    let mut near = [0u64; ATOMS];
    block::neighbours(n, bonds, &mut near)?;
    write_fine(n, &near, out)
}
