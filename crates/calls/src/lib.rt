// How the library replies to C, for every crate of C functions (`.._calls`):
//   code_of, reply_code    a refusal, a reply as one number
//   give, give_number, give_counts, give_indices   numbers, the number, the counts or the fields of a reply at the front of a lent output; 9 where they do not fit
//   unlent                 what a function over a block says that lacks an output
//   sheet_for              the sheet that a caller's number means
// A promise is `result ≡ coded answer`, `Lent answer out.old result out.new` for one output, `Beside answer one two out.old more.old result out.new more.new` for two (specs/Convention, Beside).
// What a C function does stands in a crate above this one, with its whole promise; `tteuyomal` has it again in one line, and `tteuyomal_c` exports that.
#![tactic(auto)]

ghost use Rattle.std.specs.Prelude.{◌≡◌, ◌≤◌, length};
ghost use Rattle.reply.specs.Read.{read, as_read};
ghost use Rattle.sheets.specs.Sheets.{fields_of};
ghost use Rattle.calls.specs.Convention.{code, coded, reply_code, over, number_list, counts_list, Lent};
ghost use Rattle.calls.specs.Blocks.{fields_list, unlent_reply, sheet_for};

use block::Indices;
use records::Sheet;
use reply::{Counts, Refusal};
use sheets::{field_count, fields_of};

const PLACES: usize = 72_057_594_037_927_936;

// A refusal as one number.
pub fn code_of(r: Refusal) -> u64
    ensures { result ≡ code r }
{
    (r.number % 256) as u64 + 256 * ((r.place % PLACES) as u64)
}

// A reply as one number.
pub fn reply_code(reply: Result<(), Refusal>) -> u64
    ensures { result ≡ reply_code reply }
{
    match reply {
        Ok(()) => 0,
        Err(r) => code_of(r),
    }
}

// Puts numbers at the front of a lent output.
fn put(out: &mut [u64], numbers: &[u64])
    requires { length numbers.now ≤ length out.old }
    ensures { out.new ≡ over numbers.now out.old }
{
    for i in 0..numbers.len() {
        out[i] = numbers[i];
    }
}

// The same where they fit, and 9 where they do not.
pub fn give(out: &mut [u64], numbers: &[u64]) -> u64
    ensures { Lent (read numbers.now) out.old result out.new }
{
    if out.len() < numbers.len() {
        return 9;
    }
    put(out, numbers);
    0
}

// The same with the number of a reply.
pub fn give_number(out: &mut [u64], reply: Result<u64, Refusal>) -> u64
    ensures { Lent (number_list (as_read reply)) out.old result out.new }
{
    match reply {
        Err(r) => code_of(r),
        Ok(n) => {
            let numbers = [n];
            give(out, &numbers)
        }
    }
}

// The same with how many atoms and bonds a reply tells.
pub fn give_counts(out: &mut [u64], reply: Result<Counts, Refusal>) -> u64
    ensures { Lent (counts_list (as_read reply)) out.old result out.new }
{
    match reply {
        Err(r) => code_of(r),
        Ok(x) => {
            let numbers = [x.atoms as u64, x.bonds as u64];
            give(out, &numbers)
        }
    }
}

// The same with the fields of a sheet.
fn give_fields(out: &mut [u64], sheet: Sheet, x: Indices) -> u64
    ensures { Lent (read (fields_of sheet x)) out.old result out.new }
{
    let n = field_count(sheet);
    let numbers = fields_of(x);
    give(out, &numbers[..n])
}

// The same with those of a reply.
pub fn give_indices(out: &mut [u64], sheet: Sheet, reply: Result<Indices, Refusal>) -> u64
    ensures { Lent (fields_list sheet (as_read reply)) out.old result out.new }
{
    match reply {
        Err(r) => code_of(r),
        Ok(x) => give_fields(out, sheet, x),
    }
}

// The block's refusal, and 9 where it is fine.
pub fn unlent(atoms: usize, bonds: &[u8]) -> u64
    ensures { result ≡ coded (unlent_reply atoms bonds.now) }
{
    match block::check(atoms, bonds) {
        Ok(()) => 9,
        Err(r) => code_of(r),
    }
}

// The sheet of a kind: 4 has six fields, anything else counts as 3.
pub fn sheet_for(kind: usize) -> Sheet
    ensures { result ≡ sheet_for kind }
{
    if kind == 4 {
        return Sheet::Six;
    }
    Sheet::Five
}
