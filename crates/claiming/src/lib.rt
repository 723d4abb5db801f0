// Claims: numbers of a molecule that a program printed, read and compared with its fields. Claim after claim: the field (1 byte), a length (1 byte), and so many bytes of text.
#![tactic(auto)]

ghost use Rattle.std.specs.Prelude.{◌≡◌, true, false, ◌||◌, ◌+◌, ◌-◌, ◌≤◌, ◌<◌, length};
ghost use Rattle.reply.specs.Read.{read, as_result};
ghost use Rattle.judging.specs.Judging.{said_verdict};
ghost use Rattle.claiming.specs.Claims.{printed_of, field_of, size_at, said_reading, claim_reply, near, is_right, is_of_sets, truth, claims_end, claims_reply};
ghost use Rattle.claiming.specs.Asked.{asks};
ghost use Rattle.claiming.specs.Work.{earlier, gone_through};

use judging::Verdict;
use printed::Number;
use reply::{Refusal, Rule, is_outside};

// One claim: its field, the number that it says, and what the last digit of that is worth.
#[derive(Clone, Copy, Debug, PartialEq, Eq)]
pub struct Claim {
    pub field: usize,
    pub value: u64,
    pub unit: u64,
}

// What was met in all claims: the number of the first wrong one, or 0, and whether one is of the sets that are counted in trees.
#[derive(Clone, Copy)]
struct Met {
    pub wrong: usize,
    pub sets: bool,
}

// Balaban's J.
const FINE: usize = 10;

// The bytes before a claim's text.
const HEAD: usize = 2;

// What a text says of a field.
fn number(field: usize, text: &[u8]) -> Option<Number>
    ensures { result ≡ printed_of field text.now }
{
    if field == FINE {
        return printed::fine(text);
    }
    printed::whole(text)
}

// The bytes of the claim at a place.
fn size_at(claims: &[u8], at: usize) -> usize
    requires { at < length claims.now }
    ensures { (result ≡ size_at claims.now at) × (result ≤ 257) }
{
    HEAD + reply::wide(records::byte_at(claims, at + 1)) as usize
}

// What a claim says that lies within the bytes, the k-th.
fn said(field: usize, text: &[u8], k: usize) -> Result<Claim, Refusal>
    ensures { result ≡ as_result (said_reading field text.now k) }
{
    let Some(x) = number(field, text) else {
        return Err(Rule::ClaimText.at(k));
    };
    Ok(Claim {
        field,
        value: x.value,
        unit: x.unit,
    })
}

// The claim at a place, the k-th, of a field from 1 to most.
fn claim_at(claims: &[u8], at: usize, k: usize, most: usize) -> Result<Claim, Refusal>
    requires { at < length claims.now }
    ensures { result ≡ as_result (claim_reply most claims.now at k) }
{
    let field = reply::wide(records::byte_at(claims, at)) as usize;
    if is_outside(most, field) {
        return Err(Rule::ClaimField.at(k));
    }
    let size = size_at(claims, at);
    if claims.len() - at < size {
        return Err(Rule::ClaimField.at(k));
    }
    said(field, records::part(claims, at + HEAD, size - HEAD), k)
}

// Whether one of the claims is of a field.
pub fn is_asked(claims: &[u8], field: usize) -> bool
    ensures { result ≡ asks field claims.now }
{
    let mut at = 0;
    while at < claims.len() {
        let one = reply::wide(records::byte_at(claims, at)) as usize;
        if one == field {
            return true;
        }
        let size = size_at(claims, at);
        if claims.len() - at <= size {
            return false;
        }
        at += size;
    }
    false
}

// The field of a number from 1, 0 where there is none.
fn field(own: &[u64], f: usize) -> u64
    ensures { result ≡ field_of own.now f }
{
    if is_outside(own.len(), f) {
        return 0;
    }
    own[f - 1]
}

// a less b, or 0.
fn less(a: u64, b: u64) -> u64
    ensures { result ≡ a - b }
{
    if a < b { 0 } else { a - b }
}

// Whether what is within one unit of a value meets what is at most `above` above `low`.
fn is_near(value: u64, unit: u64, low: u64, above: u64) -> bool
    ensures { result ≡ near value unit low above }
{
    if unit < less(low, value) {
        return false;
    }
    less(less(value, low), unit) <= above
}

// Whether a claim is right.
fn is_right(f: usize, value: u64, unit: u64, own: &[u64], above: u64) -> bool
    ensures { result ≡ is_right own.now above (record { field = f; value = value; unit = unit }) }
{
    let low = field(own, f);
    if f == FINE {
        return is_near(value, unit, low, above);
    }
    value == low
}

// The number of the first wrong claim, if one was met before or the k-th is none that is right.
fn first_of(wrong: usize, right: bool, k: usize) -> usize
    ensures { result ≡ earlier wrong right k }
{
    if wrong != 0 {
        return wrong;
    }
    if right { 0 } else { k }
}

// Whether one of the fields is one of the two that are counted in trees.
fn is_of_sets(before: bool, field: usize) -> bool
    ensures { result ≡ (before || is_of_sets field) }
{
    if before {
        return true;
    }
    if field == 8 {
        return true;
    }
    field == 9
}

// All claims are read, and each is compared.
fn through(claims: &[u8], own: &[u64], above: u64) -> Result<Met, Refusal>
    ensures { result ≡ as_result (gone_through own.now above claims.now 0 0 0 false) }
{
    let mut at = 0;
    let mut k: usize = 0;
    let mut wrong: usize = 0;
    let mut sets = false;
    while at < claims.len() {
        let c = claim_at(claims, at, k + 1, own.len())?;
        let right = is_right(c.field, c.value, c.unit, own, above);
        let next = first_of(wrong, right, k + 1);
        let more = is_of_sets(sets, c.field);
        wrong = next;
        sets = more;
        at += size_at(claims, at);
        k += 1;
    }
    Ok(Met { wrong, sets })
}

// The verdict by the first wrong claim, 0 for none.
fn compared(n: usize) -> Verdict
    ensures { result ≡ said_verdict (read n) }
{
    if n == 0 {
        return Verdict::Accepted;
    }
    Verdict::Differs(n)
}

// 34 where sets are claimed of what is no tree; then the verdict.
fn ended(wrong: usize, sets: bool, tree: bool) -> Verdict
    ensures { result ≡ said_verdict (claims_end sets tree wrong) }
{
    if !sets {
        return compared(wrong);
    }
    if !tree {
        return Verdict::Refused(Rule::NoTree.at(0));
    }
    compared(wrong)
}

// Claims judged by the fields of a molecule, from 1 on: J, the tenth, lies at most `above` above its field; the eighth and the ninth are of trees alone.
pub fn judged(claims: &[u8], own: &[u64], above: u64, tree: bool) -> Verdict
    ensures { result ≡ said_verdict (claims_reply (truth own.now above tree) claims.now) }
{
    if claims.len() == 0 {
        return Verdict::Refused(Rule::NoClaim.at(0));
    }
    match through(claims, own, above) {
        Err(refusal) => Verdict::Refused(refusal),
        Ok(met) => ended(met.wrong, met.sets, tree),
    }
}
