// A block and its indices.
ghost use Rattle.std.specs.Prelude.{◌≡◌};
ghost use Rattle.block.specs.Block.{block_reply};
ghost use Rattle.block_calls.specs.Replies.{Contributed, SzegedLent, balaban_list, farthest_list, indices_list, polynomial_list, sets_list, vertex_list};
ghost use Rattle.calls.specs.Convention.{Lent, coded};

#[unsafe(no_mangle)]
pub extern "C" fn tteuyomal_check_block(atoms: usize, bonds: &[u8]) -> u64
    ensures { result ≡ coded (block_reply atoms bonds.now) }
{
    tteuyomal::blocks::tteuyomal_check_block(atoms, bonds)
}

#[unsafe(no_mangle)]
pub extern "C" fn tteuyomal_indices(atoms: usize, bonds: &[u8], fields: &mut [u64]) -> u64
    ensures { Lent (indices_list atoms bonds.now) fields.old result fields.new }
{
    tteuyomal::blocks::tteuyomal_indices(atoms, bonds, fields)
}

#[unsafe(no_mangle)]
pub extern "C" fn tteuyomal_vertex(atoms: usize, bonds: &[u8], atom: usize, sums: &mut [u64]) -> u64
    ensures { Lent (vertex_list atoms bonds.now atom) sums.old result sums.new }
{
    tteuyomal::blocks::tteuyomal_vertex(atoms, bonds, atom, sums)
}

#[unsafe(no_mangle)]
pub extern "C" fn tteuyomal_farthest(
    atoms: usize,
    bonds: &[u8],
    atom: usize,
    largest: &mut [u64],
) -> u64
    ensures { Lent (farthest_list atoms bonds.now atom) largest.old result largest.new }
{
    tteuyomal::blocks::tteuyomal_farthest(atoms, bonds, atom, largest)
}

#[unsafe(no_mangle)]
pub extern "C" fn tteuyomal_polynomial(
    atoms: usize,
    bonds: &[u8],
    x: f64,
    values: &mut [f64],
) -> u64
    ensures { Lent (polynomial_list atoms bonds.now x) values.old result values.new }
{
    tteuyomal::blocks::tteuyomal_polynomial(atoms, bonds, x, values)
}

#[unsafe(no_mangle)]
pub extern "C" fn tteuyomal_contributions(
    atoms: usize,
    bonds: &[u8],
    shares: &mut [u64],
    denominator: &mut [u64],
) -> u64
    ensures { Contributed atoms bonds.now shares.old denominator.old result shares.new
        denominator.new }
{
    tteuyomal::blocks::tteuyomal_contributions(atoms, bonds, shares, denominator)
}

#[unsafe(no_mangle)]
pub extern "C" fn tteuyomal_szeged(
    atoms: usize,
    bonds: &[u8],
    terms: &mut [u64],
    index: &mut [u64],
) -> u64
    ensures { SzegedLent atoms bonds.now terms.old index.old result terms.new index.new }
{
    tteuyomal::blocks::tteuyomal_szeged(atoms, bonds, terms, index)
}

#[unsafe(no_mangle)]
pub extern "C" fn tteuyomal_balaban(atoms: usize, bonds: &[u8], value: &mut [u64]) -> u64
    ensures { Lent (balaban_list atoms bonds.now) value.old result value.new }
{
    tteuyomal::blocks::tteuyomal_balaban(atoms, bonds, value)
}

#[unsafe(no_mangle)]
pub extern "C" fn tteuyomal_count_sets(atoms: usize, bonds: &[u8], counts: &mut [u64]) -> u64
    ensures { Lent (sets_list atoms bonds.now) counts.old result counts.new }
{
    tteuyomal::blocks::tteuyomal_count_sets(atoms, bonds, counts)
}
