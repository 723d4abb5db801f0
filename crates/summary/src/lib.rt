// What the bytes of a summary say of a block, whatever the bytes are.
#![tactic(auto)]

ghost use Rattle.std.specs.Prelude.{◌≡◌, ◌*◌};
ghost use Rattle.half.specs.Half.{most_atoms};
ghost use Rattle.records.specs.Bytes.{byte_at, PartOf};
ghost use Rattle.summary.specs.Layout.{summary_head, atom_bytes, stored_atoms, stored_fields, seen_at, stored_degree};

use block::{ATOMS, Indices, size};
use records::{byte_at, little_at, part};
use reply::wide;
use sighted::{Seen, see, set};

// The bytes of the number, counts and fields that a summary opens with; those of an atom, which are the set of its neighbours; and those of a place for a summary.
pub const HEAD: usize = 16;

pub const ATOM: usize = 8;

pub const SUMMARY: usize = HEAD + ATOM * ATOMS;

fn byte(s: &[u8], at: usize) -> u64
    ensures { result ≡ byte_at s.now at }
{
    wide(byte_at(s, at))
}

// Its atoms, at most 64.
pub fn atoms(s: &[u8]) -> usize
    ensures { result ≡ stored_atoms s.now }
{
    let n = byte_at(s, 2) as usize;
    if n < ATOMS { n } else { ATOMS }
}

// The six fields.
pub fn fields(s: &[u8]) -> Indices
    ensures { result ≡ stored_fields s.now }
{
    let even = little_at(s, 4, 4);
    let odd = little_at(s, 8, 4);
    Indices {
        atoms: atoms(s) as u64,
        w: even + odd,
        even,
        odd,
        polarity: little_at(s, 12, 4),
        largest: byte(s, 3),
    }
}

// The bytes of the sets.
fn near(s: &[u8]) -> &[u8]
    ensures { PartOf s.entry summary_head (atom_bytes * most_atoms) result }
{
    part(s, HEAD, ATOM * ATOMS)
}

// All that is seen from atom i over the sets.
pub fn seen(s: &[u8], i: usize) -> Seen
    ensures { result ≡ seen_at s.now i }
{
    see(near(s), atoms(s), i)
}

// How many bonds are at atom i.
pub fn ends(s: &[u8], i: usize) -> usize
    ensures { result ≡ stored_degree s.now i }
{
    size(set(near(s), i)) as usize
}
