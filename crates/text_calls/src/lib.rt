// Molfiles and neighbour texts as C asks for them: each is the library's function under the convention of `calls`.
#![tactic(auto)]

ghost use Rattle.text_calls.specs.Molfiles.{MolfileRead, WholeFileRead, MolfileWritten};
ghost use Rattle.text_calls.specs.Texts.{TextRead, TextWritten};

use calls::{give_counts, give_number, unlent};

pub fn read_molfile(text: &[u8], bonds: &mut [u8], counts: &mut [u64]) -> u64
    ensures { MolfileRead text.now bonds.old counts.old result bonds.new counts.new }
{
    if counts.len() < 2 {
        let mut none = [0u8; 1];
        let lacking = blockfile::read(text, &mut none);
        return give_counts(counts, lacking);
    }
    let answer = blockfile::read(text, bonds);
    give_counts(counts, answer)
}

pub fn read_whole(text: &[u8], bonds: &mut [u16], counts: &mut [u64]) -> u64
    ensures { WholeFileRead text.now bonds.old counts.old result bonds.new counts.new }
{
    if counts.len() < 2 {
        let mut none = [0u16; 1];
        let lacking = wholefile::read_whole(text, &mut none);
        return give_counts(counts, lacking);
    }
    let answer = wholefile::read_whole(text, bonds);
    give_counts(counts, answer)
}

pub fn write_molfile(atoms: usize, bonds: &[u8], text: &mut [u8], length: &mut [u64]) -> u64
    ensures { MolfileWritten atoms bonds.now text.old length.old result text.new length.new }
{
    if length.len() < 1 {
        return unlent(atoms, bonds);
    }
    let answer = molwriter::write(atoms, bonds, text);
    give_number(length, answer)
}

pub fn read_neighbours(text: &[u8], bonds: &mut [u8], counts: &mut [u64]) -> u64
    ensures { TextRead text.now bonds.old counts.old result bonds.new counts.new }
{
    if counts.len() < 2 {
        let mut none = [0u8; 1];
        let lacking = neighbours::read(text, &mut none);
        return give_counts(counts, lacking);
    }
    let answer = neighbours::read(text, bonds);
    give_counts(counts, answer)
}

pub fn write_neighbours(atoms: usize, bonds: &[u8], text: &mut [u8], length: &mut [u64]) -> u64
    ensures { TextWritten atoms bonds.now text.old length.old result text.new length.new }
{
    if length.len() < 1 {
        return unlent(atoms, bonds);
    }
    let answer = neighbours::write(atoms, bonds, text);
    give_number(length, answer)
}
