// Bytes of text: blanks, digits, numbers of three characters, and the lines of a file.
#![tactic(auto)]

ghost use Rattle.std.specs.Prelude.{◌≡◌, true, [], ◌∷◌, cond, ◌+◌, ◌≤◌, eqb, length, drop};
ghost use Rattle.text.specs.Text.{feed, is_blank, is_digit, digit, line_end, starts_with, line_starts};
ghost use Rattle.text.specs.Said.{field_number, line_at};
ghost use Rattle.text.specs.Clear.{Clear};

mod writing;

use reply::wide_byte;
pub use writing::{put, put_byte, put_decimal, put_three};

pub const FEED: u8 = 10;

pub const CARRIAGE: u8 = 13;

pub const BLANK: u8 = 32;

// What a number of three characters is below: it stands for what is no number.
pub const NO_NUMBER: usize = 1000;

// A line: how many characters it has, and where the next one begins.
#[derive(Clone, Copy, Debug, PartialEq, Eq)]
pub struct Line {
    pub chars: usize,
    pub next: usize,
}

pub fn is_digit(b: u8) -> bool
    ensures { result ≡ is_digit b }
{
    if b < 48 {
        return false;
    }
    b <= 57
}

pub fn is_blank(b: u8) -> bool
    ensures { result ≡ is_blank b }
{
    b == BLANK
}

// What a digit says.
pub fn digit(b: u8) -> usize
    ensures { result ≡ digit b }
{
    if b < 48 { 0 } else { wide_byte(b) - 48 }
}

// The numbers that one, two and three characters say: blanks, then at least one digit. What is no number is 1000.
fn number_of_one(c: u8) -> usize
    ensures { result ≡ field_number (c ∷ []) }
{
    if is_digit(c) { digit(c) } else { NO_NUMBER }
}

fn number_of_two(b: u8, c: u8) -> usize
    ensures { result ≡ field_number (b ∷ c ∷ []) }
{
    if is_blank(b) {
        return number_of_one(c);
    }
    if is_digit(b) {
        if is_digit(c) {
            return 10 * digit(b) + digit(c);
        }
    }
    NO_NUMBER
}

pub fn number(a: u8, b: u8, c: u8) -> usize
    ensures { result ≡ field_number (a ∷ b ∷ c ∷ []) }
{
    if is_blank(a) {
        return number_of_two(b, c);
    }
    if is_digit(a) {
        if is_digit(b) {
            if is_digit(c) {
                return 10 * (10 * digit(a) + digit(b)) + digit(c);
            }
        }
    }
    NO_NUMBER
}

// The bytes that are looked at together.
const STEP: usize = 16;

fn is_feed(b: u8) -> u8
    ensures { result ≡ cond (eqb b feed) 1 0 }
{
    if b == FEED { 1 } else { 0 }
}

// How many of the bytes from a place on that are looked at together are line feeds; only whether it is 0 matters.
fn feeds(d: &[u8], at: usize) -> u8
    requires { at + 16 ≤ length d.now }
    ensures { result ≡ 0 → Clear d.now at 16 }
{
    let mut n: u8 = 0;
    for k in 0..STEP {
        n = n + is_feed(d[at + k]);
    }
    n
}

// A place up to which a line goes on that goes on at another.
fn skip(d: &[u8], at: usize) -> usize
    ensures { line_end d.now at ≡ line_end d.now result }
{
    let mut i = at;
    while i < d.len() {
        if d.len() - i < STEP {
            return i;
        }
        if feeds(d, i) != 0 {
            return i;
        }
        i += STEP;
    }
    i
}

// Where the line ends that begins at a place: at its line feed or at the file's length.
pub fn line_end(d: &[u8], at: usize) -> usize
    ensures { result ≡ line_end d.now at }
{
    let mut i = skip(d, at);
    while i < d.len() {
        if d[i] == FEED {
            return i;
        }
        i += 1;
    }
    i
}

// The line that begins at a place.
pub fn line_at(d: &[u8], at: usize) -> Line
    ensures { result ≡ line_at d.now at }
{
    let end = line_end(d, at);
    if d.len() <= end {
        return Line {
            chars: end - at,
            next: d.len(),
        };
    }
    let chars = end - at;
    if chars == 0 {
        return Line {
            chars,
            next: end + 1,
        };
    }
    if d[end - 1] == CARRIAGE {
        return Line {
            chars: chars - 1,
            next: end + 1,
        };
    }
    Line {
        chars,
        next: end + 1,
    }
}

// Whether bytes begin with a word.
pub fn starts_with(d: &[u8], word: &[u8]) -> bool
    ensures { result ≡ starts_with word.now d.now }
{
    for i in 0..word.len() {
        if d.len() <= i {
            return false;
        }
        if d[i] != word[i] {
            return false;
        }
    }
    true
}

// Whether a line begins with a word, from a place on where one begins.
pub fn line_starts(d: &[u8], from: usize, word: &[u8]) -> bool
    ensures { result ≡ line_starts word.now true (drop from d.now) }
{
    let mut at = from;
    while at < d.len() {
        if starts_with(&d[at..], word) {
            return true;
        }
        let seen = line_at(d, at);
        at = seen.next;
    }
    false
}
