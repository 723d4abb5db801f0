// The sheet: a list of fields, each in so many bytes, of which a sheet of five has all but the last. It is read and compared by going along that list.
#![tactic(auto)]

ghost use Rattle.std.specs.Prelude.{◌≡◌, [], ◌∷◌, ◌+◌, ◌^◌, ◌<◌, length};
ghost use Rattle.std.proofs.lemmas.List.Edits.{sets};
ghost use Rattle.records.specs.Records.{head_bytes, sheet_at};
ghost use Rattle.sheets.specs.Sheets.{field_count, all_fields, all_widths, widths as widths_of, fields_of, fields_at, claimed_at, field_bytes, sheet_bytes, sheet_put, first_wrong};
ghost use Rattle.sheets.specs.Along.{widths_total, Narrow};

use block::Indices;
use records::{HEAD, Sheet, little_at, put_little, sheet_at, sheet_kind};

// How many fields there are.
const FIELDS: usize = 6;

pub type Fields = [u64; FIELDS];

// How many of them a sheet has.
pub fn field_count(sheet: Sheet) -> usize
    ensures { result ≡ field_count sheet }
{
    match sheet {
        Sheet::Five => FIELDS - 1,
        Sheet::Six => FIELDS,
    }
}

// The bytes that each field takes: atom count, W, even part, odd part, polarity, largest distance.
fn widths() -> [usize; FIELDS]
    ensures { result ≡ all_widths }
{
    [4, 8, 8, 8, 8, 4]
}

// The fields in order.
pub fn fields_of(x: Indices) -> Fields
    ensures { result ≡ all_fields x }
{
    [x.atoms, x.w, x.even, x.odd, x.polarity, x.largest]
}

// The bytes of a sheet's record.
pub fn bytes_of(sheet: Sheet) -> usize
    ensures { result ≡ sheet_bytes sheet }
{
    let kind = sheet_kind(sheet);
    HEAD + (kind.fixed as usize)
}

// Reads numbers of some widths, one after the other from a place on.
fn read_fields(d: &[u8], from: usize, widths: &[usize], fields: &mut [u64])
    requires { (length fields.old ≡ length widths.now) × Narrow widths.now × (from + widths_total widths.now < 2 ^ 64) }
    ensures { fields.new ≡ fields_at widths.now d.now from }
{
    let mut at = from;
    for i in 0..widths.len() {
        let w = widths[i];
        fields[i] = little_at(d, at, w);
        at += w;
    }
}

// All fields that could stand in the sheet record at a place.
fn claimed(d: &[u8], sheet: usize) -> Fields
    ensures { result ≡ fields_at all_widths d.now (sheet + head_bytes) }
{
    let mut fields = [0u64; FIELDS];
    if d.len() < sheet {
        return fields;
    }
    let w = widths();
    read_fields(d, sheet + HEAD, &w, &mut fields);
    fields
}

// Puts the head of a record.
fn put_head(out: &mut [u8], length: u64, number: u64)
    ensures { out.new ≡ sets out.old 0 (field_bytes (2 ∷ 2 ∷ []) (length ∷ number ∷ [])) }
{
    put_little(out, 0, 2, length);
    put_little(out, 2, 2, number);
}

// Puts the five fields that both sheets have, behind the head.
fn put_five(out: &mut [u8], atoms: u64, w: u64, even: u64, odd: u64, polarity: u64)
    ensures { out.new ≡ sets out.old head_bytes (field_bytes (widths_of Sheet.Five) (atoms ∷ w ∷ even ∷ odd ∷ polarity ∷ [])) }
{
    put_little(out, 4, 4, atoms);
    put_little(out, 8, 8, w);
    put_little(out, 16, 8, even);
    put_little(out, 24, 8, odd);
    put_little(out, 32, 8, polarity);
}

// Puts the fields of a sheet.
fn put_fields(out: &mut [u8], sheet: Sheet, x: Indices)
    ensures { out.new ≡ sets out.old head_bytes (field_bytes (widths_of sheet) (fields_of sheet x)) }
{
    put_five(out, x.atoms, x.w, x.even, x.odd, x.polarity);
    match sheet {
        Sheet::Five => {}
        Sheet::Six => put_little(out, 40, 4, x.largest),
    }
}

// Puts the record of a sheet into the first bytes of a buffer; one that is too short stays as it was.
pub fn put_sheet(out: &mut [u8], sheet: Sheet, x: Indices)
    ensures { out.new ≡ sheet_put sheet out.old (fields_of sheet x) }
{
    if out.len() < bytes_of(sheet) {
        return;
    }
    let kind = sheet_kind(sheet);
    put_head(out, kind.fixed as u64, kind.number as u64);
    put_fields(out, sheet, x);
}

// The first of some fields, counted from 1, in which two lists of them differ, or 0.
fn first_apart(xs: &[u64], ys: &[u64]) -> usize
    requires { length xs.now ≡ length ys.now }
    ensures { result ≡ first_wrong 1 xs.now ys.now }
{
    for i in 0..xs.len() {
        if xs[i] != ys[i] {
            return i + 1;
        }
    }
    0
}

// The first field, counted from 1, that the sheet record at a place claims otherwise than x has it, or 0.
pub fn first_wrong(d: &[u8], sheet: usize, x: Indices) -> usize
    ensures { result ≡ first_wrong 1 (fields_of (sheet_at d.now sheet) x) (claimed_at d.now sheet) }
{
    let n = field_count(sheet_at(d, sheet));
    let xs = fields_of(x);
    let ys = claimed(d, sheet);
    first_apart(&xs[..n], &ys[..n])
}
