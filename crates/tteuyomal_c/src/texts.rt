// Molfiles and neighbour texts.
ghost use Rattle.std.specs.Prelude.{length};
ghost use Rattle.text_calls.specs.Molfiles.{MolfileRead, WholeFileRead, MolfileWritten};
ghost use Rattle.text_calls.specs.Texts.{TextRead, TextWritten};

#[unsafe(no_mangle)]
pub extern "C" fn tteuyomal_read_molfile(text: &[u8], bonds: &mut [u8], counts: &mut [u64]) -> u64
    ensures { MolfileRead text.now bonds.old counts.old result bonds.new counts.new }
{
    tteuyomal::texts::tteuyomal_read_molfile(text, bonds, counts)
}

#[unsafe(no_mangle)]
pub extern "C" fn tteuyomal_read_whole(text: &[u8], bonds: &mut [u16], counts: &mut [u64]) -> u64
    ensures { WholeFileRead text.now bonds.old counts.old result bonds.new counts.new }
{
    tteuyomal::texts::tteuyomal_read_whole(text, bonds, counts)
}

#[unsafe(no_mangle)]
pub extern "C" fn tteuyomal_write_molfile(
    atoms: usize,
    bonds: &[u8],
    text: &mut [u8],
    length: &mut [u64],
) -> u64
    ensures { MolfileWritten atoms bonds.now text.old length.old result text.new length.new }
{
    tteuyomal::texts::tteuyomal_write_molfile(atoms, bonds, text, length)
}

#[unsafe(no_mangle)]
pub extern "C" fn tteuyomal_read_neighbours(
    text: &[u8],
    bonds: &mut [u8],
    counts: &mut [u64],
) -> u64
    ensures { TextRead text.now bonds.old counts.old result bonds.new counts.new }
{
    tteuyomal::texts::tteuyomal_read_neighbours(text, bonds, counts)
}

#[unsafe(no_mangle)]
pub extern "C" fn tteuyomal_write_neighbours(
    atoms: usize,
    bonds: &[u8],
    text: &mut [u8],
    length: &mut [u64],
) -> u64
    ensures { TextWritten atoms bonds.now text.old length.old result text.new length.new }
{
    tteuyomal::texts::tteuyomal_write_neighbours(atoms, bonds, text, length)
}
