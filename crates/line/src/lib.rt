// The text of each reply: one line, as bytes.
#![tactic(auto)]

ghost use Rattle.std.specs.Prelude.{◌≡◌, [], ◌++◌, ◌+◌, leb};
ghost use Rattle.io.specs.Counts.{IsPrefixLen};
ghost use Rattle.text.specs.Text.{decimal};
ghost use Rattle.line.specs.Text.{indices_text, refusal_text, measured_text, differs_text, verdict_text, deck_text, unread_text, longer_text, lined};
ghost use Rattle.line.specs.Label.{label_reply, labelled};
ghost use Rattle.line.specs.Put.{Adds};

use block::Indices;
use deck::Form;
use judging::Verdict;
use reply::Refusal;
use text::put;

// The digits of the largest number, and the bytes of the longest line.
const DIGITS: usize = 20;

pub const LONGEST: usize = 31 + 5 * DIGITS;

// A line, zeros behind it, and its length.
#[derive(Clone, Copy, Debug, PartialEq, Eq)]
pub struct Line {
    pub text: [u8; LONGEST],
    pub len: usize,
}

fn empty() -> Line
    ensures { result ≡ lined [] }
{
    Line {
        text: [0; LONGEST],
        len: 0,
    }
}

impl Line {
    // The line with a word more.
    fn with(self, word: &[u8]) -> Line
        ensures { Adds self word.now result }
    {
        let mut text = self.text;
        let len = put(&mut text, self.len, word);
        Line { text, len }
    }

    // The line with the decimal digits of n more.
    fn digits(self, n: u64) -> Line
        ensures { Adds self (decimal n) result }
    {
        let mut text = [0u8; DIGITS];
        let k = io::decimal(n, &mut text);
        self.with(&text[..k])
    }

    // The line with a word and a number more.
    fn named(self, word: &[u8], n: u64) -> Line
        ensures { Adds self (word.now ++ decimal n) result }
    {
        self.with(word).digits(n)
    }
}

fn indices_line(x: Indices) -> Line
    ensures { result ≡ lined (indices_text x) }
{
    empty()
        .named(b"atoms ", x.atoms)
        .named(b" W ", x.w)
        .named(b" even ", x.even)
        .named(b" odd ", x.odd)
        .named(b" polarity ", x.polarity)
        .with(b"\n")
}

fn refusal_line(r: Refusal) -> Line
    ensures { result ≡ lined (refusal_text r) }
{
    empty()
        .named(b"refused ", r.number as u64)
        .named(b" at ", r.place as u64)
        .with(b"\n")
}

// The line of a block's or a deck's indices, or of its refusal.
pub fn measured_line(m: Result<Indices, Refusal>) -> Line
    ensures value { result ≡ lined (measured_text m) }
    ensures prefix_len { IsPrefixLen result.len result.text }
{
    match m {
        Err(r) => refusal_line(r),
        Ok(x) => indices_line(x),
    }
}

fn differs_line(field: usize) -> Line
    ensures { result ≡ lined (differs_text field) }
{
    empty().named(b"differs ", field as u64).with(b"\n")
}

// The line of a verdict on a deck's sheet.
pub fn verdict_line(v: Verdict) -> Line
    ensures value { result ≡ lined (verdict_text v) }
    ensures prefix_len { IsPrefixLen result.len result.text }
{
    match v {
        Verdict::Accepted => empty().with(b"accepted\n"),
        Verdict::Differs(field) => differs_line(field),
        Verdict::Refused(r) => refusal_line(r),
    }
}

// The line of a deck that cannot be read.
pub fn unread_line() -> Line
    ensures value { result ≡ lined unread_text }
    ensures prefix_len { IsPrefixLen result.len result.text }
{
    empty().with(b"cannot be read\n")
}

// The line of a file that is longer than what is looked at.
pub fn longer_line() -> Line
    ensures value { result ≡ lined longer_text }
    ensures prefix_len { IsPrefixLen result.len result.text }
{
    empty().with(b"longer than 1048576 bytes\n")
}

fn has_room(size: usize, name: usize, more: usize) -> bool
    ensures { result ≡ leb (name + more) size }
{
    name <= size && more <= size - name
}

// Behind a file's name, the first `name` bytes of out, puts `: ` and its line, and answers how many bytes that makes. Where there is no room it puts nothing and answers 0.
pub fn label(out: &mut [u8], name: usize, words: &[u8]) -> usize
    ensures value { result ≡ label_reply out.old name words.now }
    ensures out_after { out.new ≡ labelled out.old name words.now }
    ensures prefix_len { IsPrefixLen result out.new }
{
    let colon = b": ";
    if has_room(out.len(), name, colon.len() + words.len()) {
        let at = put(out, name, colon);
        put(out, at, words)
    } else {
        0
    }
}

// The whole answer to a deck: the line of its five fields, or of the verdict on its sheet, or of its refusal.
pub fn deck_line(form: Form, d: &[u8]) -> Line
    ensures value { result ≡ lined (deck_text form d.now) }
    ensures prefix_len { IsPrefixLen result.len result.text }
{
    match form {
        Form::Composed => measured_line(judging::compose(d)),
        Form::Judged => verdict_line(judging::judge(d)),
    }
}
