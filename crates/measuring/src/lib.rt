// The indices of the block that a molfile or a neighbour text holds.
#![tactic(auto)]

ghost use Rattle.std.specs.Prelude.{◌≡◌};
ghost use Rattle.measuring.specs.Measuring.{Fits, counted_reply, measure_reply};
ghost use Rattle.measuring.specs.Texts.{measured_text_reply};
ghost use Rattle.reply.specs.Read.{as_result, as_read};

use block::Indices;
use reply::{Counts, Refusal};

// What is measured after reading: by what it told, of the bonds at the front of these bytes.
fn counted(seen: Result<Counts, Refusal>, bytes: &[u8]) -> Result<Indices, Refusal>
    requires { Fits seen bytes.now }
    ensures { result ≡ as_result (counted_reply (as_read seen) bytes.now) }
{
    let x = seen?;
    let len = 2 * x.bonds;
    reach::measure(x.atoms, &bytes[..len])
}

// Atom count, W, even part, odd part, polarity and largest distance of the block of a molfile, or its refusal: the lines', then the block's.
pub fn measure(text: &[u8]) -> Result<Indices, Refusal>
    ensures { result ≡ as_result (measure_reply text.now) }
{
    let mut bonds = [0u8; block::BYTES];
    let seen = blockfile::read(text, &mut bonds);
    counted(seen, &bonds)
}

// The same of a neighbour text: its refusals, then the block's.
pub fn measure_neighbours(text: &[u8]) -> Result<Indices, Refusal>
    ensures { result ≡ as_result (measured_text_reply text.now) }
{
    let mut bonds = [0u8; block::BYTES];
    let seen = neighbours::read(text, &mut bonds);
    counted(seen, &bonds)
}
