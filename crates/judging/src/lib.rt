// The judge: composing a deck's sheet, writing it, and judging one that somebody else wrote.
#![tactic(auto)]

ghost use Rattle.std.specs.Prelude.{◌≡◌, length};
ghost use Rattle.reply.specs.Read.{read, as_result};
ghost use Rattle.deck.specs.declared.Form.TheVariants.{Composed};
ghost use Rattle.compose.specs.Fields.{fields_reply};
ghost use Rattle.judging.specs.Judging.{judge_reply, said_verdict, sheet_write_reply, said_sheet_written, sheet_out};

use block::Indices;
use compose::fields;
use deck::{Form, LONGEST};
use records::Sheet;
use reply::{Refusal, Rule};
use sheets::{bytes_of, first_wrong, put_sheet};

// What a judged deck is told: it differs in the first wrong field, 1 to 5 or, with a sheet of six, 1 to 6.
#[derive(Clone, Copy, Debug, PartialEq, Eq)]
pub enum Verdict {
    Refused(Refusal),
    Accepted,
    Differs(usize),
}

// The fields of a deck without a sheet, or its refusal.
pub fn compose(d: &[u8]) -> Result<Indices, Refusal>
    ensures { result ≡ as_result (fields_reply Composed d.now) }
{
    let x = fields(d, Form::Composed)?;
    Ok(x.fields)
}

// Writes a sheet of a deck without one, a whole record of 40 or 44 bytes, into the first bytes of a buffer. A refusal writes nothing.
pub fn write_sheet(d: &[u8], sheet: Sheet, out: &mut [u8]) -> Result<(), Refusal>
    ensures reply { result ≡ said_sheet_written (sheet_write_reply sheet d.now (length out.old)) }
    ensures bytes { out.new ≡ sheet_out sheet out.old (sheet_write_reply sheet d.now (length out.old)) }
{
    let bytes = bytes_of(sheet);
    if LONGEST < d.len() {
        return Err(Rule::DeckLength.at(0));
    }
    if out.len() < bytes {
        return Err(Rule::ShortOutput.at(0));
    }
    // no question mark: the edit refusal_lost turns the refusal alone
    match compose(d) {
        Err(refusal) => Err(refusal),
        Ok(all) => {
            put_sheet(out, sheet, all);
            Ok(())
        }
    }
}

// The verdict on a sheet by its first wrong field, 0 for none.
fn compared(n: usize) -> Verdict
    ensures { result ≡ said_verdict (read n) }
{
    if n == 0 {
        return Verdict::Accepted;
    }
    Verdict::Differs(n)
}

// Judges the sheet at the end of a deck, of either kind: accepted, or the first wrong field, or the deck's refusal.
pub fn judge(d: &[u8]) -> Verdict
    ensures { result ≡ said_verdict (judge_reply d.now) }
{
    match fields(d, Form::Judged) {
        Err(refusal) => Verdict::Refused(refusal),
        Ok(x) => compared(first_wrong(d, x.sheet, x.fields)),
    }
}
