// The products of a library as C asks for them.
#![tactic(auto)]

ghost use Rattle.std.specs.Prelude.{◌≡◌, suc, ◌≤◌, length};
ghost use Rattle.library.specs.Steps.{step_reply, step_out, run_of};
ghost use Rattle.calls.specs.Convention.{Lent};
ghost use Rattle.calls.specs.Blocks.{sheet_for};
ghost use Rattle.library_calls.specs.Libraries.{count_list, with_next, step_code, stepped_code, stepped_next, Walked};

use calls::{code_of, give_number, sheet_for};
use deck::LONGEST;
use records::Sheet;
use reply::Refusal;
use sheets::bytes_of;

// What C says for done: no refusal has that number.
const DONE: u64 = 254;

pub fn count(deck: &[u8], count: &mut [u64]) -> u64
    ensures { Lent (count_list deck.now) count.old result count.new }
{
    let answer = catalogue::count(deck);
    give_number(count, answer)
}

// What a step into an output of so many bytes says where the next position has no room.
fn unlent_step(deck: &[u8], sheet: Sheet, position: usize, room: usize) -> u64
    ensures { result ≡ step_code (with_next 0 (step_reply sheet deck.now position room)) }
{
    if LONGEST < deck.len() {
        return 20;
    }
    if room < bytes_of(sheet) {
        return 9;
    }
    let answer = library::product(deck, position);
    match answer {
        Err(r) => code_of(r),
        Ok(None) => DONE,
        Ok(Some(_)) => 9,
    }
}

// The reply to a step or a run, and the next position.
fn tell(told: Result<Option<usize>, Refusal>, next: &mut [u64]) -> u64
    requires { 1 ≤ length next.old }
    ensures reply { result ≡ stepped_code told }
    ensures next { next.new ≡ stepped_next told next.old }
{
    match told {
        Err(r) => code_of(r),
        Ok(None) => DONE,
        Ok(Some(n)) => {
            next[0] = n as u64;
            0
        }
    }
}

pub fn step(deck: &[u8], kind: usize, position: usize, out: &mut [u8], next: &mut [u64]) -> u64
    ensures { Walked (step_reply (sheet_for kind) deck.now position (length out.old))
        (step_out (sheet_for kind) out.old (step_reply (sheet_for kind) deck.now position (length out.old)))
        (suc position) out.old next.old result out.new next.new }
{
    let sheet = sheet_for(kind);
    if next.len() < 1 {
        return unlent_step(deck, sheet, position, out.len());
    }
    let told = library::step(deck, sheet, position, out);
    tell(told, next)
}

pub fn run(deck: &[u8], kind: usize, position: usize, out: &mut [u8], next: &mut [u64]) -> u64
    ensures { Walked (step_reply (sheet_for kind) deck.now position (length out.old))
        (run_of (sheet_for kind) deck.now position out.old).out
        (run_of (sheet_for kind) deck.now position out.old).next out.old next.old result
        out.new next.new }
{
    let sheet = sheet_for(kind);
    if next.len() < 1 {
        return unlent_step(deck, sheet, position, out.len());
    }
    let told = library::run(deck, sheet, position, out);
    tell(told, next)
}
