// What a summary opens with: its number, and the fields of the block.
ghost use Rattle.std.specs.Prelude.{◌≡◌};
ghost use Rattle.std.proofs.lemmas.List.Edits.{sets};
ghost use Rattle.filling.specs.Work.{first_bytes, total_bytes, head_on};

use block::Indices;
use records::put_little;

fn put_first(out: &mut [u8], number: u64, n: u64, largest: u64)
    ensures { out.new ≡ sets out.old 0 (first_bytes number n largest) }
{
    put_little(out, 0, 2, number);
    put_little(out, 2, 1, n);
    put_little(out, 3, 1, largest);
}

fn put_totals(out: &mut [u8], even: u64, odd: u64, polarity: u64)
    ensures { out.new ≡ sets out.old 4 (total_bytes even odd polarity) }
{
    put_little(out, 4, 4, even);
    put_little(out, 8, 4, odd);
    put_little(out, 12, 4, polarity);
}

// The sixteen bytes that a summary opens with.
pub(crate) fn put_head(out: &mut [u8], number: u64, s: Indices)
    ensures { out.new ≡ sets out.old 0 (head_on number s) }
{
    put_first(out, number, s.atoms, s.largest);
    put_totals(out, s.even, s.odd, s.polarity);
}
