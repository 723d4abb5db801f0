// The numbers of a text, and its refusals 21 and 22.
ghost use Rattle.std.specs.Prelude.{◌≡◌, true, ◌≤◌, ◌<◌, length, get_or};
ghost use Rattle.reply.specs.Read.{read, ◌then◌, as_result};
ghost use Rattle.text.specs.Text.{is_digit};
ghost use Rattle.adjacency.specs.Neighbours.{too_much, grown, is_apart, is_good, fault_at, label_after, is_last, last_reply};
ghost use Rattle.adjacency.specs.Work.{value_after, start_after, numbers_at, Skipped, Here, Next, shaped_from};

use super::{Token, bonds};
use reply::{Refusal, Rule};
use text::{digit, is_digit};

// The most that a number may say.
const MOST: usize = 999;

// What is above it.
const TOO_MUCH: usize = MOST + 1;

// What digits say: those before say v.
fn grown(v: usize, b: u8) -> usize
    requires { v ≤ too_much }
    ensures { result ≡ grown v b }
{
    let more = 10 * v + digit(b);
    if more < TOO_MUCH { more } else { TOO_MUCH }
}

fn is_apart(b: u8) -> bool
    ensures { result ≡ is_apart b }
{
    if b == b' ' {
        return true;
    }
    if b == b'\t' {
        return true;
    }
    if b == b'\r' {
        return true;
    }
    b == b'\n'
}

fn is_good(b: u8) -> bool
    ensures { result ≡ is_good b }
{
    if is_digit(b) { true } else { is_apart(b) }
}

// What digits say that a byte goes on with, 0 where it is no digit.
fn value_after(v: usize, b: u8) -> usize
    requires { v ≤ too_much }
    ensures { result ≡ value_after v b }
{
    if is_digit(b) { grown(v, b) } else { 0 }
}

// Where digits begin that a byte goes on with, the next place where it is no digit.
fn start_after(start: usize, next: usize, b: u8) -> usize
    ensures { result ≡ start_after start next b }
{
    if is_digit(b) { start } else { next }
}

// The place of refusal 21, or the length.
pub(crate) fn fault(text: &[u8]) -> usize
    ensures { result ≡ fault_at text.now }
{
    let mut value = 0;
    let mut start = 0;
    let mut i = 0;
    while i < text.len() {
        let b = text[i];
        if !is_good(b) {
            return i;
        }
        value = value_after(value, b);
        if MOST < value {
            return start;
        }
        let next = i + 1;
        start = start_after(start, next, b);
        i = next;
    }
    i
}

// The place of the first digit from a place on, or the length.
fn skip(text: &[u8], at: usize) -> usize
    requires { at ≤ length text.now }
    ensures { Skipped text.now at result }
{
    let mut i = at;
    while i < text.len() {
        if is_digit(text[i]) {
            return i;
        }
        i += 1;
    }
    i
}

// The number that begins at a place.
fn digits(text: &[u8], at: usize) -> Token
    requires { (at < length text.now) × (is_digit (get_or text.now at 0) ≡ true) }
    ensures { Here text.now at result.value at result.next }
{
    let mut value = grown(0, text[at]);
    let mut next = at + 1;
    while next < text.len() {
        if !is_digit(text[next]) {
            return Token {
                value,
                place: at,
                next,
            };
        }
        value = grown(value, text[next]);
        next += 1;
    }
    Token {
        value,
        place: at,
        next,
    }
}

// The first number from a place on; its place is the length where there is none.
pub(crate) fn number(text: &[u8], at: usize) -> Token
    requires { at ≤ length text.now }
    ensures { Next text.now at result.value result.place result.next }
{
    let place = skip(text, at);
    if text.len() <= place {
        return Token {
            value: 0,
            place,
            next: place,
        };
    }
    let seen = digits(text, place);
    Token {
        value: seen.value,
        place,
        next: seen.next,
    }
}

// The label for the number after x.
pub(crate) fn label_after(label: usize, x: usize) -> usize
    ensures { result ≡ label_after label x }
{
    if x == 0 {
        return 0;
    }
    if label == 0 { x } else { label }
}

// Whether a number after a label is the last 0.
fn is_last(label: usize, x: usize) -> bool
    ensures { result ≡ is_last label x }
{
    label == 0 && x == 0
}

// Nothing stands after the last 0; k bonds stand before it.
fn last(text: &[u8], at: usize, k: usize) -> Result<usize, Refusal>
    requires { at ≤ length text.now }
    ensures { result ≡ as_result (last_reply (numbers_at text.now at) then λ _. read k) }
{
    let x = number(text, at);
    if text.len() <= x.place {
        return Ok(k);
    }
    Err(Rule::TextEnd.at(x.place))
}

// The descriptions from a place on, up to the last 0.
pub(crate) fn shape(text: &[u8], from: usize) -> Result<usize, Refusal>
    requires { from ≤ length text.now }
    ensures { result ≡ as_result (shaped_from (length text.now) 0 0 (numbers_at text.now from)) }
{
    let mut at = from;
    let mut label = 0;
    let mut k = 0;
    loop {
        let x = number(text, at);
        if text.len() <= x.place {
            return Err(Rule::TextEnd.at(text.len()));
        }
        if is_last(label, x.value) {
            return last(text, x.next, k);
        }
        k = k + bonds::one_if_bond(label, x.value);
        label = label_after(label, x.value);
        at = x.next;
    }
}
