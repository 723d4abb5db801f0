//! What every part of the library answers with: a value, or a refusal. And what all of them do with small numbers.
#![tactic(auto)]

mod rule;

ghost use Rattle.std.specs.Prelude.{◌≡◌, ◌≤◌, max, Err};
ghost use Rattle.reply.specs.Read.{refusal, is_outside};

pub use rule::Rule;

// What is wrong, by the number of the rules' table, and where.
#[derive(Clone, Copy, Debug, PartialEq, Eq)]
pub struct Refusal {
    pub number: usize,
    pub place: usize,
}

// How many atoms and bonds a molecule has.
#[derive(Clone, Copy, Debug, PartialEq, Eq)]
pub struct Counts {
    pub atoms: usize,
    pub bonds: usize,
}

// A refusal at place 0.
pub fn refused(number: usize) -> Result<(), Refusal>
    ensures { result ≡ Err (refusal number 0) }
{
    Err(Refusal { number, place: 0 })
}

// Whether v is none of the numbers 1 to n.
pub fn is_outside(n: usize, v: usize) -> bool
    ensures { result ≡ is_outside n v }
{
    v == 0 || v > n
}

// A byte as a number, with its bound.
pub fn wide(x: u8) -> u64
    ensures { (result ≡ x) × (result ≤ 255) }
{
    x as u64
}

// The same as a size; and a number of two bytes.
pub fn wide_byte(x: u8) -> usize
    ensures { (result ≡ x) × (result ≤ 255) }
{
    x as usize
}

pub fn wide_two(x: u16) -> usize
    ensures { (result ≡ x) × (result ≤ 65535) }
{
    x as usize
}

// The larger of two numbers.
pub fn larger(a: u64, b: u64) -> u64
    ensures { result ≡ max a b }
{
    if a < b { b } else { a }
}
