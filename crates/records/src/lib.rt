// Bytes, little-endian numbers and records: refusals 11 to 13.
#![tactic(auto)]

mod little;

ghost use Rattle.std.specs.Prelude.{not, ◌≡◌, [], ◌∷◌, ◌+◌, ◌≤◌, eqb, length};
ghost use Rattle.records.specs.Bytes.{byte_at, le16, PartOf};
ghost use Rattle.records.specs.Records.{head_bytes, length_at, sheet_kind, sheet_at, wanted, is_wrong, length_reply, record_reply};
ghost use Rattle.reply.specs.Read.{as_result};

pub use little::{little_at, put_little};
use reply::{Refusal, Rule};

// The bytes of a record's head: payload length and kind.
pub const HEAD: usize = 4;

// A kind of record: its number, the bytes of payload that hold its counts, where in the payload the count of its items stands, the bytes of an item, and
// whether it is loose: it has no such items, and who reads it says where its payload ends.
#[derive(Clone, Copy, Debug, PartialEq, Eq)]
pub struct Kind {
    pub number: u16,
    pub fixed: u16,
    pub count: u16,
    pub item: u16,
    pub loose: bool,
}

// The kinds that there are.
pub const BLOCK: Kind = Kind {
    number: 1,
    fixed: 6,
    count: 4,
    item: 2,
    loose: false,
};

pub const ASSEMBLY: Kind = Kind {
    number: 2,
    fixed: 2,
    count: 0,
    item: 6,
    loose: false,
};

pub const SHEET_OF_FIVE: Kind = Kind {
    number: 3,
    fixed: 36,
    count: 0,
    item: 0,
    loose: false,
};

pub const SHEET_OF_SIX: Kind = Kind {
    number: 4,
    fixed: 40,
    count: 0,
    item: 0,
    loose: false,
};

// A sheet has five fields or six.
#[derive(Clone, Copy, Debug, PartialEq, Eq)]
pub enum Sheet {
    Five,
    Six,
}

// The kind of a sheet's record.
pub fn sheet_kind(sheet: Sheet) -> Kind
    ensures { result ≡ sheet_kind sheet }
{
    match sheet {
        Sheet::Five => SHEET_OF_FIVE,
        Sheet::Six => SHEET_OF_SIX,
    }
}

// The byte at a place, 0 past the end.
pub fn byte_at(d: &[u8], at: usize) -> u8
    ensures { result ≡ byte_at d.now at }
{
    if at < d.len() { d[at] } else { 0 }
}

// The little-endian number of two bytes at a place.
pub fn le16_at(d: &[u8], at: usize) -> u16
    ensures { result ≡ le16 d.now at }
{
    if at < d.len() {
        return (byte_at(d, at) as u16) + 256 * (byte_at(d, at + 1) as u16);
    }
    0
}

// The len bytes from a place on, fewer where the slice ends.
pub fn part(d: &[u8], from: usize, len: usize) -> &[u8]
    ensures { PartOf d.entry from len result }
{
    let end = d.len();
    if end < from {
        return &d[end..];
    }
    if end - from < len {
        return &d[from..];
    }
    let to = from + len;
    &d[from..to]
}

// The payload of the record at a place.
pub fn payload_at(d: &[u8], at: usize) -> &[u8]
    ensures { PartOf d.entry (at + head_bytes) (length_at d.now at) result }
{
    if d.len() < at {
        return part(d, at, 0);
    }
    part(d, at + HEAD, le16_at(d, at) as usize)
}

// Whether the record at a place has another length than its count asks.
fn is_odd(d: &[u8], at: usize, k: Kind) -> bool
    requires { at + head_bytes ≤ length d.now }
    ensures { result ≡ not (eqb (length_at d.now at) (wanted k d.now at)) }
{
    let items = le16_at(d, at + HEAD + (k.count as usize)) as usize;
    (le16_at(d, at) as usize) != (k.fixed as usize) + (k.item as usize) * items
}

// Whether the length of the record at a place, which is of a kind, is wrong.
fn is_wrong(d: &[u8], at: usize, k: Kind) -> bool
    requires { at + head_bytes ≤ length d.now }
    ensures { result ≡ is_wrong k d.now at }
{
    if k.loose {
        return le16_at(d, at) < k.fixed;
    }
    is_odd(d, at, k)
}

// Refusal 13 of the record at a place, which is of a kind.
fn length_reply(d: &[u8], at: usize, k: Kind) -> Result<(), Refusal>
    requires { at + head_bytes ≤ length d.now }
    ensures { result ≡ as_result (length_reply k d.now at) }
{
    if is_wrong(d, at, k) {
        return Err(Rule::PayloadLength.at(at));
    }
    Ok(())
}

// Refusals 11, 12 and 13 of the record at a place where two kinds may stand.
pub fn record_at(d: &[u8], at: usize, a: Kind, b: Kind) -> Result<(), Refusal>
    ensures { result ≡ as_result (record_reply (a ∷ b ∷ []) d.now at) }
{
    if d.len() < at {
        return Err(Rule::RecordCut.at(at));
    }
    if d.len() - at < HEAD + (le16_at(d, at) as usize) {
        return Err(Rule::RecordCut.at(at));
    }
    let kind = le16_at(d, at + 2);
    if kind == a.number {
        return length_reply(d, at, a);
    }
    if kind == b.number {
        return length_reply(d, at, b);
    }
    Err(Rule::RecordKind.at(at))
}

// Which of the two a sheet's record at a place is.
pub fn sheet_at(d: &[u8], at: usize) -> Sheet
    ensures { result ≡ sheet_at d.now at }
{
    if d.len() < at {
        return Sheet::Five;
    }
    if le16_at(d, at + 2) == SHEET_OF_SIX.number {
        return Sheet::Six;
    }
    Sheet::Five
}
