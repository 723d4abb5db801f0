// What a summary keeps of each atom: the set of its neighbours.
ghost use Rattle.std.specs.Prelude.{◌≡◌, ◌≤◌};
ghost use Rattle.std.proofs.lemmas.List.Edits.{sets};
ghost use Rattle.half.specs.Half.{most_atoms};
ghost use Rattle.summary.specs.Layout.{summary_head};
ghost use Rattle.filling.specs.Work.{near_bytes};

use block::Neighbours;
use records::put_little;
use summary::{ATOM, HEAD};

// The sets of the first n atoms.
pub(crate) fn put_atoms(out: &mut [u8], near: &Neighbours, n: usize)
    requires { n ≤ most_atoms }
    ensures { out.new ≡ sets out.old summary_head (near_bytes near.now 0 n) }
{
    for i in 0..n {
        put_little(out, HEAD + ATOM * i, ATOM, near[i]);
    }
}
