// The programs: a deck, a molfile or a neighbour text from standard input or from each file that is named, and one line for it.
#![tactic(auto)]

ghost use Rattle.std.specs.Prelude.{◌≡◌, ◌≤◌, length, IfOk, IfSome};
ghost use Rattle.io.specs.Counts.{IsPrefixLen};

use block::Indices;
use deck::Form;
use line::Line;
use reply::Refusal;
use std::env::FillError;
use std::io::Read;
use std::rt::{Env, Files};
use std::{fs, io};

// One byte more than the longest deck, so that a longer one is seen to be longer.
const ROOM: usize = deck::LONGEST + 1;

// The longest text that is read, and one byte more.
const LONGEST_TEXT: usize = 1048576;

const TEXT_ROOM: usize = LONGEST_TEXT + 1;

// The longest argument that Linux hands over, and behind it `: ` and the longest line.
const WIDTH: usize = 131072 + 2 + line::LONGEST;

// The longest first word.
const WORD: usize = 10;

// What is asked of each input.
#[derive(Clone, Copy)]
enum Asked {
    Deck(Form),
    Text(Kind),
}

// What a text that is measured is.
#[derive(Clone, Copy)]
enum Kind {
    Molfile,
    Neighbours,
}

// How many bytes were read, and whether no read failed.
#[derive(Clone, Copy)]
struct Got {
    whole: bool,
    n: usize,
}

// One read.
fn read_some<F: Read>(from: &mut F, part: &mut [u8]) -> Got
    ensures { result.n ≤ length part.new }
{
    match from.read(part) {
        Ok(n) => Got { whole: true, n },
        Err(_) => Got { whole: false, n: 0 },
    }
}

// Reads until the buffer is full, the input ends or a read fails.
fn read_whole<F: Read>(from: &mut F, bytes: &mut [u8]) -> Got
    ensures { IsPrefixLen result.n bytes.new }
{
    let mut n = 0;
    while n < bytes.len() {
        let got = read_some(from, &mut bytes[n..]);
        if got.n == 0 {
            return Got {
                whole: got.whole,
                n,
            };
        }
        n += got.n;
    }
    Got { whole: true, n }
}

// The line of a deck that is read.
fn deck_line<F: Read>(form: Form, from: &mut F) -> Line
    ensures { IsPrefixLen result.len result.text }
{
    let mut deck = [0u8; ROOM];
    let got = read_whole(from, &mut deck);
    if !got.whole {
        return line::unread_line();
    }
    let n = got.n;
    line::deck_line(form, &deck[..n])
}

// What is measured of a text.
fn measured(kind: Kind, text: &[u8]) -> Result<Indices, Refusal> {
    match kind {
        Kind::Molfile => measuring::measure(text),
        Kind::Neighbours => measuring::measure_neighbours(text),
    }
}

// Room for the longest text and one byte more. A function of its own, so that nobody who proves looks at a million zeros.
fn text_room() -> [u8; TEXT_ROOM] {
    [0; TEXT_ROOM]
}

// The line of a text that is read.
fn text_line<F: Read>(kind: Kind, from: &mut F) -> Line
    ensures { IsPrefixLen result.len result.text }
{
    let mut text = text_room();
    let got = read_whole(from, &mut text);
    if !got.whole {
        return line::unread_line();
    }
    let n = got.n;
    if LONGEST_TEXT < n {
        return line::longer_line();
    }
    line::measured_line(measured(kind, &text[..n]))
}

fn input_line<F: Read>(asked: Asked, from: &mut F) -> Line
    ensures { IsPrefixLen result.len result.text }
{
    match asked {
        Asked::Deck(form) => deck_line(form, from),
        Asked::Text(kind) => text_line(kind, from),
    }
}

// The line of a file by its name.
fn file_line<R: Files>(rt: &R, asked: Asked, name: &str) -> Line
    ensures { IsPrefixLen result.len result.text }
{
    match fs::open(rt, name) {
        Ok(mut file) => input_line(asked, &mut file),
        Err(_) => line::unread_line(),
    }
}

// The same by the bytes of its name. Nothing opens a file whose name is no text.
fn named_line<R: Files>(rt: &R, asked: Asked, name: &[u8]) -> Line
    ensures { IsPrefixLen result.len result.text }
{
    match std::str::from_utf8(name) {
        Ok(text) => file_line(rt, asked, text),
        Err(_) => line::unread_line(),
    }
}

// Puts argument i at the front of a buffer, and answers how many bytes it has: 0 where it does not fit. Answers nothing where there is no such argument.
fn argument<R: Env>(rt: &R, i: usize, out: &mut [u8]) -> Option<usize>
    ensures { IfSome result (λ n. n ≤ length out.new) }
{
    match rt.arg(i, out) {
        Ok(n) => Some(n),
        Err(FillError::TooLong) => Some(0),
        Err(FillError::NotPresent) => None,
    }
}

// Prints a line behind a file's name, the first n bytes of out. A line is written in one piece.
fn print_named<R: Print>(rt: &R, out: &mut [u8], n: usize, said: Line) -> io::Result<()>
    requires { IsPrefixLen said.len said.text }
{
    let text = said.text;
    let len = said.len;
    let k = line::label(out, n, &text[..len]);
    rt.write_all(&out[..k])
}

// Prints the line of standard input.
fn answer_input<R: Input + Print>(rt: &R, asked: Asked) -> io::Result<()> {
    let mut input = rt.reader();
    let said = input_line(asked, &mut input);
    let text = said.text;
    let len = said.len;
    rt.write_all(&text[..len])
}

// Prints the lines of the files that the arguments from one on name, as long as lines can be printed.
fn answer_files<R: Env + Files + Print>(rt: &R, asked: Asked, from: usize) -> io::Result<()> {
    let mut out = [0u8; WIDTH];
    for i in from..usize::MAX {
        let Some(n) = argument(rt, i, &mut out) else {
            return Ok(());
        };
        let said = named_line(rt, asked, &out[..n]);
        print_named(rt, &mut out, n, said)?;
    }
    Ok(())
}

// One line for each file that the arguments from one on name, or for standard input where there are none.
fn serve<R: Env + Files + Input + Print>(rt: &R, asked: Asked, from: usize) -> io::Result<()> {
    let mut room = [0u8; 1];
    match argument(rt, from, &mut room) {
        None => answer_input(rt, asked),
        Some(_) => answer_files(rt, asked, from),
    }
}

fn is(word: &[u8], name: &[u8]) -> bool {
    word.len() == name.len() && text::starts_with(word, name)
}

fn asked_by(word: &[u8]) -> Option<Asked> {
    if is(word, b"judge") {
        return Some(Asked::Deck(Form::Judged));
    }
    if is(word, b"measure") {
        return Some(Asked::Text(Kind::Molfile));
    }
    if is(word, b"neighbours") {
        return Some(Asked::Text(Kind::Neighbours));
    }
    None
}

// What the first argument asks for.
fn first_word<R: Env>(rt: &R) -> Option<Asked> {
    let mut room = [0u8; WORD];
    let n = argument(rt, 1, &mut room)?;
    asked_by(&room[..n])
}

// The program `sheet`: the sheet of each deck that has none. What is read and written no promise can say; the only error is that of a write.
pub fn serve_sheets<R: Env + Files + Input + Print>(rt: &R) -> io::Result<()>
    ensures { IfOk result (λ v. v ≡ tt) }
{
    serve(rt, Asked::Deck(Form::Composed), 1)
}

// The program `desk`: the first word says what is asked of each input, and any other word or none is told so.
pub fn serve_by_word<R: Env + Files + Input + Print>(rt: &R) -> io::Result<()>
    ensures { IfOk result (λ v. v ≡ tt) }
{
    match first_word(rt) {
        Some(asked) => serve(rt, asked, 2),
        None => rt.write_all(b"the first word is judge, measure or neighbours\n"),
    }
}
