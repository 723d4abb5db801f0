// Of a block.
ghost use Rattle.std.specs.Prelude.{◌≤◌, length};

use crate::{values, written};
use half::PAIRS;
use lines::row::{FAR, Row, STAYS};
use lines::told;
use reply::{Refusal, wide};
use sets::Sets;
use shares::BONDS;

// The first entries of a buffer are lent.
fn contributed(n: usize, bonds: &[u8], out: &mut [u64], lent: usize) -> Result<u64, Refusal>
    requires { lent ≤ length out.old }
{
    shares::contributions(n, bonds, &mut out[..lent])
}

// D or a refusal, or what stands in the buffer after that.
fn shared(letter: u8, n: usize, bonds: &[u8], lent: usize) -> Row
    requires { lent ≤ 192 }
{
    let mut out = [STAYS; BONDS];
    let reply = contributed(n, bonds, &mut out, lent);
    if letter == b'e' {
        return told::entries(&out);
    }
    told::number(reply)
}

// The Szeged index, or the terms of the bonds in the lent entries.
fn szeged(letter: u8, n: usize, bonds: &[u8]) -> Row {
    let mut out = [STAYS; BONDS];
    let reply = szeged::terms(n, bonds, &mut out);
    if letter == b'u' {
        return told::entries(&out);
    }
    told::number(reply)
}

// Both numbers of a tree, by the recursion from a root.
fn sets(reply: Result<Sets, Refusal>) -> Row {
    match reply {
        Err(r) => told::refusal(r),
        Ok(x) => told::two(x.bonds, x.atoms),
    }
}

// What a half says of two atoms either way round, once a number is stored for them.
fn got(i: usize, j: usize, d: u8) -> Row {
    let mut half = [0u8; PAIRS];
    half::put(&mut half, i, j, d);
    told::two(wide(half::get(&half, i, j)), wide(half::get(&half, j, i)))
}

// Of no number, or of an atom.
fn of_atom(letter: u8, n: usize, bonds: &[u8], atom: usize) -> Row {
    match letter {
        b'c' => told::of_reply(block::check(n, bonds)),
        b'v' => told::around(block::vertex_sums(n, bonds, atom)),
        b'r' => told::farthest(block::row(n, bonds, atom)),
        b'j' => told::number(balaban::index(n, bonds)),
        b'h' => sets(sets::count_from(n, bonds, atom)),
        _ => szeged(letter, n, bonds),
    }
}

fn reply_to(letter: u8, n: usize, bonds: &[u8], row: Row) -> Row {
    let i = row.first(0, FAR);
    let j = row.first(1, FAR);
    match letter {
        b'a' => told::number(block::distance(n, bonds, i, j)),
        b'd' | b'e' => shared(letter, n, bonds, row.first(0, BONDS)),
        b'g' => got(i, j, row.first(2, FAR) as u8),
        _ => of_atom(letter, n, bonds, i),
    }
}

// By two ways: level by level with no distance stored, and the plain one, by the matrix. Both have to say what the line says.
fn measured(letter: u8, n: usize, bonds: &[u8], row: Row) -> bool {
    let reply = reach::measure(n, bonds);
    let plain = matrix::measure(n, bonds);
    row.says(told::indices(letter, reply)) && row.says(told::indices(letter, plain))
}

fn block_right(letter: u8, n: usize, bonds: &[u8], row: Row) -> bool {
    match letter {
        b'i' | b'l' => measured(letter, n, bonds, row),
        b'p' | b'm' | b'n' => values::right(letter, n, bonds, row),
        b'w' => written::molfile(n, bonds, row),
        b'k' => written::neighbours(n, bonds, row),
        _ => row.says(reply_to(letter, n, bonds, row)),
    }
}

// The first byte is how many atoms the block has.
pub(crate) fn right(letter: u8, bytes: &[u8], row: Row) -> bool {
    let n = records::byte_at(bytes, 0) as usize;
    block_right(letter, n, records::part(bytes, 1, bytes.len()), row)
}
