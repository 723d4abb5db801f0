// A block's indices as C asks for them: each is the library's function under the convention of `calls`.
#![tactic(auto)]

ghost use Rattle.std.specs.Prelude.{◌≡◌};
ghost use Rattle.reply.specs.Read.{read};
ghost use Rattle.block.specs.Block.{block_reply};
ghost use Rattle.calls.specs.Convention.{coded, Lent};
ghost use Rattle.block_calls.specs.Replies.{indices_list, vertex_list, farthest_list, values_list, polynomial_list, balaban_list, sets_list, Contributed, SzegedLent};

use calls::{code_of, give, give_indices, give_number, reply_code, unlent};
use poly::Values;
use records::Sheet;
use reply::wide;

pub fn check_block(atoms: usize, bonds: &[u8]) -> u64
    ensures { result ≡ coded (block_reply atoms bonds.now) }
{
    let reply = block::check(atoms, bonds);
    reply_code(reply)
}

pub fn indices(atoms: usize, bonds: &[u8], fields: &mut [u64]) -> u64
    ensures { Lent (indices_list atoms bonds.now) fields.old result fields.new }
{
    let answer = reach::measure(atoms, bonds);
    give_indices(fields, Sheet::Five, answer)
}

pub fn vertex(atoms: usize, bonds: &[u8], atom: usize, sums: &mut [u64]) -> u64
    ensures { Lent (vertex_list atoms bonds.now atom) sums.old result sums.new }
{
    let answer = block::vertex_sums(atoms, bonds, atom);
    match answer {
        Err(r) => code_of(r),
        Ok(v) => {
            let numbers = [v.sum, v.even, v.odd, v.evens, v.odds, v.ones, v.twos];
            give(sums, &numbers)
        }
    }
}

pub fn farthest(atoms: usize, bonds: &[u8], atom: usize, largest: &mut [u64]) -> u64
    ensures { Lent (farthest_list atoms bonds.now atom) largest.old result largest.new }
{
    let seen = block::row(atoms, bonds, atom);
    let reply = seen.reply;
    match reply {
        Err(r) => code_of(r),
        Ok(()) => {
            let numbers = [wide(seen.largest)];
            give(largest, &numbers)
        }
    }
}

// Two values at the front of a lent output.
fn give_values(out: &mut [f64], v: Values) -> u64
    ensures { Lent (read (values_list v)) out.old result out.new }
{
    if out.len() < 2 {
        return 9;
    }
    out[0] = v.even;
    out[1] = v.odd;
    0
}

pub fn polynomial(atoms: usize, bonds: &[u8], x: f64, values: &mut [f64]) -> u64
    ensures { Lent (polynomial_list atoms bonds.now x) values.old result values.new }
{
    let answer = poly::polynomial(atoms, bonds, x);
    match answer {
        Err(r) => code_of(r),
        Ok(v) => give_values(values, v),
    }
}

pub fn contributions(atoms: usize, bonds: &[u8], shares: &mut [u64], denominator: &mut [u64]) -> u64
    ensures { Contributed atoms bonds.now shares.old denominator.old result shares.new
        denominator.new }
{
    if denominator.len() < 1 {
        return unlent(atoms, bonds);
    }
    let answer = shares::contributions(atoms, bonds, shares);
    give_number(denominator, answer)
}

pub fn szeged(atoms: usize, bonds: &[u8], terms: &mut [u64], index: &mut [u64]) -> u64
    ensures { SzegedLent atoms bonds.now terms.old index.old result terms.new index.new }
{
    if index.len() < 1 {
        // What `unlent` says, in less stack.
        let mut none = [0u64; 0];
        let answer = szeged::terms(atoms, bonds, &mut none);
        return give_number(index, answer);
    }
    let answer = szeged::terms(atoms, bonds, terms);
    give_number(index, answer)
}

pub fn balaban(atoms: usize, bonds: &[u8], value: &mut [u64]) -> u64
    ensures { Lent (balaban_list atoms bonds.now) value.old result value.new }
{
    let answer = balaban::index(atoms, bonds);
    give_number(value, answer)
}

pub fn count_sets(atoms: usize, bonds: &[u8], counts: &mut [u64]) -> u64
    ensures { Lent (sets_list atoms bonds.now) counts.old result counts.new }
{
    let answer = sets::count(atoms, bonds);
    match answer {
        Err(r) => code_of(r),
        Ok(x) => {
            let numbers = [x.bonds, x.atoms];
            give(counts, &numbers)
        }
    }
}
