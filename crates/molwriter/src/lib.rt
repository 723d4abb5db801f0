// Writes a block as a V2000 molfile.
#![tactic(auto)]

ghost use Rattle.std.specs.Prelude.{◌≡◌, ◌++◌, length};
ghost use Rattle.graph.specs.Graph.{bond};
ghost use Rattle.block.specs.Block.{bonds_of, block_reply};
ghost use Rattle.reply.specs.Read.{read, as_result};
ghost use Rattle.text.specs.Text.{ascii};
ghost use Rattle.text.specs.Put.{Puts};
ghost use Rattle.molwriter.specs.Written.{molfile_write_reply, written_bytes};
ghost use Rattle.molwriter.specs.Pieces.{counts_text, atoms_text, bond_text, bonds_text};

use reply::{Refusal, Rule, wide_byte};

// The bytes of the lines that every file has, of an atom line and of a bond line, line feeds among them.
const FIXED: usize = 50;

const ATOM: usize = 70;

const BOND: usize = 22;

// Puts the header and the counts line.
fn put_counts(out: &mut [u8], n: usize, m: usize) -> usize
    ensures { Puts out.old 0 (ascii "\n\n\n" ++ counts_text n m) out.new result }
{
    let a = text::put(out, 0, b"\n\n\n");
    let b = text::put_three(out, a, n);
    let c = text::put_three(out, b, m);
    text::put(out, c, b"  0  0  0  0  0  0  0  0999 V2000\n")
}

// Puts n atom lines.
fn put_atoms(out: &mut [u8], at: usize, n: usize) -> usize
    ensures { Puts out.old at (atoms_text n) out.new result }
{
    let mut k = at;
    for _ in 0..n {
        let next = text::put(
            out,
            k,
            b"    0.0000    0.0000    0.0000 C   0  0  0  0  0  0  0  0  0  0  0  0\n",
        );
        k = next;
    }
    k
}

// Puts a bond line.
fn put_bond(out: &mut [u8], at: usize, a: u8, b: u8) -> usize
    ensures { Puts out.old at (bond_text (bond a b)) out.new result }
{
    let i = text::put_three(out, at, wide_byte(a));
    let j = text::put_three(out, i, wide_byte(b));
    text::put(out, j, b"  1  0  0  0  0\n")
}

// Puts the bond lines.
fn put_bonds(out: &mut [u8], at: usize, bonds: &[u8]) -> usize
    ensures { Puts out.old at (bonds_text (bonds_of bonds.now)) out.new result }
{
    let m = bonds.len() / 2;
    let mut at_end = at;
    for k in 0..m {
        let next = put_bond(out, at_end, bonds[2 * k], bonds[2 * k + 1]);
        at_end = next;
    }
    at_end
}

// The answer for a block that is not refused.
fn written(n: usize, bonds: &[u8], out: &mut [u8]) -> Result<u64, Refusal>
    requires { block_reply n bonds.now ≡ read tt }
    ensures reply { result ≡ as_result (molfile_write_reply n bonds.now (length out.old)) }
    ensures bytes { out.new ≡ written_bytes n bonds.now out.old }
{
    let m = bonds.len() / 2;
    if out.len() < FIXED + ATOM * n + BOND * m {
        return Err(Rule::ShortOutput.at(0));
    }
    let a = put_counts(out, n, m);
    let b = put_atoms(out, a, n);
    let c = put_bonds(out, b, bonds);
    let end = text::put(out, c, b"M  END\n");
    Ok(end as u64)
}

// Writes a block as a molfile at the front of the lent output and answers how many bytes that takes; later bytes stay. Or it is a refusal, and no byte
// changes: the block's, then 9 where fewer bytes are lent than the text has.
pub fn write(n: usize, bonds: &[u8], out: &mut [u8]) -> Result<u64, Refusal>
    ensures reply { result ≡ as_result (molfile_write_reply n bonds.now (length out.old)) }
    ensures bytes { out.new ≡ written_bytes n bonds.now out.old }
{
    block::check(n, bonds)?;
    written(n, bonds, out)
}
