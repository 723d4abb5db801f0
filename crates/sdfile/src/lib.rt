// SDF: every record of a file, and what its data items say.
#![tactic(auto)]

ghost use Rattle.std.specs.Prelude.{◌≡◌, cond, ◌≤◌, ◌<◌, eqb, length, drop};
ghost use Rattle.reply.specs.Read.{refused, refusal, as_result};
ghost use Rattle.records.specs.Bytes.{PartOf};
ghost use Rattle.text.specs.Text.{starts_with, next_line};
ghost use Rattle.sdfile.specs.Sdf.{line_from, is_white, all_white, step_at, items_from, tagged, has_name, is_header, header_from, stands, has_tag, is_some_header, value_chars, opens, opens_in, is_no_name, value_reply, item_reply};
ghost use Rattle.sdfile.specs.Said.{span_of};

use reply::{Refusal, Rule};
use text::{BLANK, CARRIAGE, FEED};

const TAB: u8 = 9;

// What stands round a name, and the second at a header's first byte.
const OPENS: u8 = 60;

const CLOSES: u8 = 62;

// The most of the first in a name.
const MOST_OPENS: usize = 16;

// A record: its first byte, how many it has, and where the next one begins.
#[derive(Clone, Copy, Debug, PartialEq, Eq)]
pub struct Piece {
    pub start: usize,
    pub len: usize,
    pub next: usize,
}

// A part of a record: its first byte, and how many it has.
#[derive(Clone, Copy, Debug, PartialEq, Eq)]
pub struct Span {
    pub start: usize,
    pub len: usize,
}

fn is_white(b: u8) -> bool
    ensures { result ≡ is_white b }
{
    if b == BLANK {
        return true;
    }
    if b == TAB {
        return true;
    }
    if b == CARRIAGE {
        return true;
    }
    b == FEED
}

// Whether from a place on there are only white bytes.
fn all_white(d: &[u8], from: usize) -> bool
    ensures { result ≡ all_white (drop from d.now) }
{
    let mut i = from;
    while i < d.len() {
        if is_white(d[i]) {
            i += 1;
        } else {
            return false;
        }
    }
    true
}

// Where the first line begins that begins with a word, from a place on.
fn line_from(d: &[u8], from: usize, word: &[u8]) -> usize
    ensures { result ≡ line_from (starts_with word.now) d.now from }
{
    let mut at = from;
    while at < d.len() {
        if text::starts_with(&d[at..], word) {
            return at;
        }
        let seen = text::line_at(d, at);
        at = seen.next;
    }
    at
}

// The record that begins at a place; `None` where all are done: only blanks, tabs, CR and LF are left.
pub fn record(text: &[u8], from: usize) -> Option<Piece>
    ensures { result ≡ step_at text.now from }
{
    if all_white(text, from) {
        return None;
    }
    let end = line_from(text, from, b"$$$$");
    let len = end - from;
    let behind = text::line_at(text, end);
    Some(Piece {
        start: from,
        len,
        next: behind.next,
    })
}

// Whether <NAME> stands at a place.
fn is_tag(d: &[u8], at: usize, name: &[u8]) -> bool
    requires { at < length d.now }
    ensures { result ≡ starts_with (tagged name.now) (drop at d.now) }
{
    if d[at] != OPENS {
        return false;
    }
    let from = at + 1;
    if d.len() - from <= name.len() {
        return false;
    }
    if text::starts_with(&d[from..], name) {
        return d[from + name.len()] == CLOSES;
    }
    false
}

// Whether it stands somewhere.
fn has_tag(d: &[u8], name: &[u8]) -> bool
    ensures { result ≡ has_name (tagged name.now) d.now }
{
    for i in 0..d.len() {
        if is_tag(d, i, name) {
            return true;
        }
    }
    false
}

// Whether a line is a header of a name.
fn is_header(d: &[u8], at: usize, name: &[u8]) -> bool
    requires { at < length d.now }
    ensures { result ≡ is_header name.now (drop at d.now) }
{
    if d[at] != CLOSES {
        return false;
    }
    let end = text::line_end(d, at);
    has_tag(&d[at..end], name)
}

// Where the first header of a name begins, from a place on.
fn header_from(d: &[u8], from: usize, name: &[u8]) -> usize
    ensures { result ≡ header_from d.now name.now from }
{
    let mut at = from;
    while at < d.len() {
        if is_header(d, at, name) {
            return at;
        }
        let seen = text::line_at(d, at);
        at = seen.next;
    }
    at
}

// Where the line behind one begins.
fn next_line(d: &[u8], at: usize) -> usize
    ensures { result ≡ next_line d.now at }
{
    let seen = text::line_at(d, at);
    seen.next
}

// Whether a byte stands among bytes, from a place on.
fn stands(d: &[u8], from: usize, b: u8) -> bool
    ensures { result ≡ stands b (drop from d.now) }
{
    for i in from..d.len() {
        if d[i] == b {
            return true;
        }
    }
    false
}

// Whether a tag of some name stands among them.
fn has_some_tag(d: &[u8]) -> bool
    ensures { result ≡ has_tag d.now }
{
    for i in 0..d.len() {
        if d[i] == OPENS {
            return stands(d, i + 1, CLOSES);
        }
    }
    false
}

// Whether a line is a header of some name.
fn is_some_header(d: &[u8], at: usize) -> bool
    requires { at < length d.now }
    ensures { result ≡ is_some_header (drop at d.now) }
{
    if d[at] != CLOSES {
        return false;
    }
    let end = text::line_end(d, at);
    has_some_tag(&d[at..end])
}

// How many characters the value has that is the line at a place.
fn value_chars(d: &[u8], at: usize) -> usize
    ensures { result ≡ value_chars d.now at }
{
    if d.len() <= at {
        return 0;
    }
    if is_some_header(d, at) {
        return 0;
    }
    let value = text::line_at(d, at);
    value.chars
}

fn none() -> Result<Span, Refusal>
    ensures { result ≡ as_result (refused (refusal 38 0)) }
{
    Err(Rule::NoItem.at(0))
}

// The value that stands at a place, if no other header of the name follows.
fn value_at(d: &[u8], name: &[u8], at: usize) -> Result<Span, Refusal>
    ensures { result ≡ as_result (value_reply d.now name.now at) }
{
    let two = header_from(d, at, name);
    if two < d.len() {
        return Err(Rule::TwoItems.at(two));
    }
    let len = value_chars(d, at);
    Ok(Span { start: at, len })
}

// Where the data items begin.
fn items_from(d: &[u8]) -> usize
    ensures { result ≡ items_from d.now }
{
    let from = molfile::rest_place(d);
    let end = line_from(d, from, b"M  END");
    next_line(d, end)
}

// 1 for a < and 0 for any other byte.
fn opening(b: u8) -> usize
    ensures { (result ≡ cond (eqb b opens) 1 0) × (result ≤ 1) }
{
    if b == OPENS {
        return 1;
    }
    0
}

// How many < there are.
fn opens_in(name: &[u8]) -> usize
    ensures { result ≡ opens_in name.now }
{
    let mut k: usize = 0;
    for i in 0..name.len() {
        k += opening(name[i]);
    }
    k
}

fn is_no_name(name: &[u8]) -> bool
    ensures { result ≡ is_no_name name.now }
{
    if name.len() == 0 {
        return true;
    }
    let many = opens_in(name);
    many > MOST_OPENS
}

// The value of the data item of a name.
pub fn item(d: &[u8], name: &[u8]) -> Result<Span, Refusal>
    ensures { result ≡ as_result (item_reply d.now name.now) }
{
    if is_no_name(name) {
        return none();
    }
    let items = items_from(d);
    let one = header_from(d, items, name);
    if d.len() <= one {
        return none();
    }
    let at = next_line(d, one);
    value_at(d, name, at)
}

// The part of a record that is the value: empty at its front where the item is refused.
pub fn item_part<'a>(d: &'a [u8], name: &[u8]) -> &'a [u8]
    ensures { PartOf d.entry (span_of (item_reply d.now name.now)).start (span_of (item_reply d.now name.now)).len result }
{
    match item(d, name) {
        Err(_) => records::part(d, 0, 0),
        Ok(s) => records::part(d, s.start, s.len),
    }
}
