// The summary of a block, put into lent bytes.
#![tactic(auto)]

mod atoms;
mod store;

ghost use Rattle.std.specs.Prelude.{◌≡◌, length};
ghost use Rattle.filling.specs.Reply.{fill_reply, fill_bytes};
ghost use Rattle.reply.specs.Read.{as_result};

use atoms::put_atoms;
use block::ATOMS;
use reach::opened;
use reply::{Refusal, Rule};
use store::put_head;
use summary::SUMMARY;

// The summary of a block under a number: the first bytes become it, 16 and 8 for each atom, and later ones stay. Or it is a refusal, and no byte
// changes: the block's, then 9 at 0 where there are fewer bytes than a place for a summary has.
pub fn fill(number: u16, n: usize, bonds: &[u8], out: &mut [u8]) -> Result<(), Refusal>
    ensures reply { result ≡ as_result (fill_reply n bonds.now (length out.old)) }
    ensures bytes { out.new ≡ fill_bytes number n bonds.now out.old }
{
    let mut near = [0u64; ATOMS];
    let indices = opened(n, bonds, &mut near)?;
    if out.len() < SUMMARY {
        return Err(Rule::ShortOutput.at(0));
    }
    put_head(out, number as u64, indices);
    put_atoms(out, &near, n);
    Ok(())
}
