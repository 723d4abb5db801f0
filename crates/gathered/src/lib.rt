// Composing a sheet from a whole record over the blocks that a queue holds.
#![tactic(auto)]

ghost use Rattle.std.specs.Prelude.{◌≡◌, cond, ltb, length};
ghost use Rattle.reply.specs.Read.{read, ◌then◌, as_result};
ghost use Rattle.records.specs.Records.{payload_at, end_at};
ghost use Rattle.queues.specs.Queues.{compose_told};
ghost use Rattle.deck.specs.Deck.{longest_deck, moved, placement_place, end_reply};
ghost use Rattle.sheets.specs.Sheets.{sheet_bytes};
ghost use Rattle.judging.specs.Judging.{said_sheet_written, sheet_out};
ghost use Rattle.gathered.specs.Gathered.{over_record, behind_head, sheet_told};

use assembly::PLACEMENT_BYTES;
use block::Indices;
use deck::LONGEST;
use queues::{Queue, TABLE};
use records::{ASSEMBLY, HEAD, Sheet, le16_at, payload_at, record_at};
use reply::{Refusal, Rule, refused};
use sheets::{bytes_of, put_sheet};

// What is wrong before the record is read: 20 where it is too long, 9 where the output is too short for the sheet, or 0.
fn fault(sheet: Sheet, long: usize, output: usize) -> usize
    ensures { result ≡ cond (ltb longest_deck long) 20 (cond (ltb output (sheet_bytes sheet)) 9 0) }
{
    let bytes = bytes_of(sheet);
    if LONGEST < long {
        return 20;
    }
    if output < bytes {
        return 9;
    }
    0
}

// The fields that the payload of the record at the front makes of a queue's blocks; a refusal stands at the placement's first byte.
fn placed(table: &[u8], queue: Queue, d: &[u8]) -> Result<Indices, Refusal>
    ensures { result ≡ as_result (moved (placement_place 0)
        (compose_told table.now queue (payload_at d.now 0))) }
{
    match queues::compose(table, queue, payload_at(d, 0)) {
        Err(r) => Err(Refusal {
            number: r.number,
            place: PLACEMENT_BYTES * r.place,
        }),
        Ok(all) => Ok(all),
    }
}

// The fields, where nothing follows the record at the front.
fn ended(d: &[u8], all: Indices) -> Result<Indices, Refusal>
    ensures { result ≡ as_result (end_reply d.now (end_at d.now 0) then λ _. read all) }
{
    let end = HEAD + (le16_at(d, 0) as usize);
    if end < d.len() {
        return Err(Rule::RecordCut.at(end));
    }
    Ok(all)
}

// What the payload is told, and then what follows the record.
fn behind_head(table: &[u8], queue: Queue, d: &[u8]) -> Result<Indices, Refusal>
    ensures { result ≡ as_result (behind_head
        (compose_told table.now queue (payload_at d.now 0)) d.now) }
{
    let all = placed(table, queue, d)?;
    ended(d, all)
}

// The fields that a record makes of a queue's blocks, or its refusal.
fn composed(table: &[u8], queue: Queue, d: &[u8]) -> Result<Indices, Refusal>
    ensures { result ≡ as_result (over_record
        (compose_told table.now queue (payload_at d.now 0)) d.now) }
{
    record_at(d, 0, ASSEMBLY, ASSEMBLY)?;
    behind_head(table, queue, d)
}

// Composes a record over a queue's blocks and puts the sheet, a whole record of 40 or 44 bytes, into the first bytes of an output. A
// refusal writes nothing.
pub fn compose(
    table: &[u8],
    queue: Queue,
    sheet: Sheet,
    d: &[u8],
    out: &mut [u8],
) -> Result<(), Refusal>
    ensures reply { result ≡ said_sheet_written (sheet_told table.now queue sheet d.now (length out.old)) }
    ensures bytes { out.new ≡ sheet_out sheet out.old
        (sheet_told table.now queue sheet d.now (length out.old)) }
{
    if table.len() < TABLE {
        return Err(Rule::ShortOutput.at(0));
    }
    let f = fault(sheet, d.len(), out.len());
    if f != 0 {
        return refused(f);
    }
    let all = composed(table, queue, d)?;
    put_sheet(out, sheet, all);
    Ok(())
}
