// The candidates of a site, and what is wrong with them.
ghost use Rattle.std.specs.Prelude.{◌≡◌, true, false, cond, ℕ, ◌%◌, ◌≤◌, length, take};
ghost use Rattle.graph.specs.Graph.{Graph, degree};
ghost use Rattle.block.specs.Block.{bonds_of};
ghost use Rattle.assembly.specs.Book.{block_graph, book_of};
ghost use Rattle.catalogue.specs.Library.{is_full_in, candidate_fault, candidates_fault};

use assembly::{BLOCK_HEAD, BOND_BYTES, BlockAt, BlockTable, bonds_part, find_block, is_numbered};
use block::{LIMIT, degree_of};
use records::{byte_at, le16_at};
use reply::is_outside;

// The bytes of a candidate: block number (2), joining atom (1).
pub const CANDIDATE: usize = 3;

// The bytes of bonds that are held against an atom at once: of a fixed number of them the compiler makes no loop.
const WINDOW: usize = 32;

fn one_if(x: bool) -> u8
    ensures { (result ≡ cond x 1 0) × (result ≤ 1) }
{
    if x { 1 } else { 0 }
}

// How many ends of bonds are at an atom, of bytes so few that the number fits a byte: many of them are held against the atom at a time.
fn ends_in(bonds: &[u8], a: u8) -> u8
    requires { (length bonds.now ≤ 255) × (length bonds.now % 2 ≡ 0) }
    ensures { result ≡ degree (bonds_of bonds.now) a }
{
    let mut total: u8 = 0;
    for i in 0..bonds.len() {
        total = total + one_if(bonds[i] == a);
    }
    total
}

// The same of any bytes.
fn ends_at(bonds: &[u8], a: u8) -> usize
    ensures { result ≡ degree (bonds_of bonds.now) a }
{
    let bytes = bonds.len();
    if bytes <= 255 {
        if bytes % 2 == 0 {
            return ends_in(bonds, a) as usize;
        }
    }
    degree_of(bonds, a)
}

// Whether a window shows that an atom is not full: the block's bonds are its first bytes, so it has no fewer ends. One that cannot hold them shows nothing.
fn is_sparse(d: &[u8], b: BlockAt, a: u8) -> bool
    ensures { result ≡ true → is_full_in (block_graph d.now b) a ≡ false }
{
    let from = b.start as usize + BLOCK_HEAD;
    let to = from + WINDOW;
    if WINDOW < BOND_BYTES * (b.bonds as usize) {
        return false;
    }
    if d.len() < to {
        return false;
    }
    (ends_in(&d[from..to], a) as usize) < LIMIT
}

// Whether an atom of a block has as many bonds as it may.
fn is_full(d: &[u8], b: BlockAt, a: u8) -> bool
    ensures { result ≡ is_full_in (block_graph d.now b) a }
{
    let bonds = bonds_part(d, b);
    LIMIT <= ends_at(bonds, a)
}

// The same of a candidate's own atom, by a window where that shows it: there are many candidates.
fn is_own_full(d: &[u8], b: BlockAt, own: u8) -> bool
    ensures { result ≡ is_full_in (block_graph d.now b) own }
{
    if is_sparse(d, b, own) {
        return false;
    }
    is_full(d, b, own)
}

// What is wrong with the candidate at a place, for a site at an atom of the core that is full or not: 13, 16, 18, 19, or 0.
fn candidate_fault(
    d: &[u8],
    blocks: BlockTable,
    count: usize,
    full: bool,
    xs: &[u8],
    p: usize,
) -> usize
    requires { p ≤ length xs.now }
    ensures { (core : Graph) (atom : ℕ) → full ≡ is_full_in core atom
        → result ≡ candidate_fault (book_of d.now (take count blocks)) core xs.now atom p }
{
    if xs.len() < p + CANDIDATE {
        return 13;
    }
    let number = le16_at(xs, p) as usize;
    let b = find_block(blocks, count, number);
    if !is_numbered(b, number) {
        return 16;
    }
    let own = byte_at(xs, p + 2);
    if is_outside(b.atoms as usize, own as usize) {
        return 18;
    }
    if full {
        return 19;
    }
    if is_own_full(d, b, own) {
        return 19;
    }
    0
}

// What is wrong with the first wrong one of some candidates from a place on, or 0. The site's own atom is looked at once for all of them.
pub(crate) fn candidates_fault(
    d: &[u8],
    blocks: BlockTable,
    count: usize,
    core: BlockAt,
    atom: u8,
    many: usize,
    xs: &[u8],
    first: usize,
) -> usize
    requires { first ≤ length xs.now }
    ensures { result ≡ candidates_fault (book_of d.now (take count blocks)) (block_graph d.now core)
        xs.now atom many first }
{
    let full = is_full(d, core, atom);
    let mut left = many;
    let mut p = first;
    while 0 < left {
        let f = candidate_fault(d, blocks, count, full, xs, p);
        if f != 0 {
            return f;
        }
        p += CANDIDATE;
        left -= 1;
    }
    0
}
