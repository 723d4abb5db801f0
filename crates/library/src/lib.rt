// The products of a library: what is kept of its core and its candidates, and each product joined from that by the composing crates.
#![tactic(auto)]

mod choice;
mod last;

ghost use Rattle.std.specs.Prelude.{◌≡◌, List, ℕ, suc, ◌+◌, ◌-◌, ◌≤◌, ◌<◌, min, length, take};
ghost use Rattle.reply.specs.Read.{read};
ghost use Rattle.assembly.specs.declared.BlockAt.{BlockAt};
ghost use Rattle.records.specs.Records.{payload_at};
ghost use Rattle.catalogue.specs.Library.{Library, library_reply};
ghost use Rattle.catalogue.specs.Products.{products, product_at, product_reply};
ghost use Rattle.library.specs.Said.{said_product};
ghost use Rattle.catalogue.specs.Said.{said_library};
ghost use Rattle.library.specs.Steps.{step_reply, step_out, said_step, run_of};
ghost use Rattle.library.specs.Held.{Held, FirstHeld, Spread};
ghost use Rattle.stock.specs.Stock.{core_at};
ghost use Rattle.library.specs.Values.{most_fields, values_of, values_reply, said_values, values_out};
ghost use Rattle.library.specs.Filled.{Filled};

use arms::{Core, SUMMARY, core_in, stem_of};
use assembly::BlockTable;
use block::Indices;
use catalogue::{LibraryRead, SITES, Site, read_library};
use choice::choose;
use deck::LONGEST;
use last::{staying_at, turn, turn_values};
use records::{Sheet, le16_at, payload_at};
use reply::{Refusal, Rule, is_outside};
use sheets::{bytes_of, put_sheet};
use stock::{ArmRows, all_arms, arms_at, atoms_of, core_at};

// The core, by the first block as it was opened while the deck was read, where that is the core.
fn core_by(
    d: &[u8],
    blocks: BlockTable,
    count: usize,
    xs: &[u8],
    sites: [Site; SITES],
    first: &[u8; SUMMARY],
) -> Core
    requires { FirstHeld d.now blocks count first.now }
    ensures { result ≡ core_at d.now (take count blocks) xs.now sites }
{
    let b = blocks[0];
    if b.number == le16_at(xs, 0) {
        return core_in(first, atoms_of(sites));
    }
    core_at(d, blocks, count, xs, sites)
}

// The fields of the product at a position of a library that is read.
fn fields_at(
    d: &[u8],
    blocks: BlockTable,
    count: usize,
    at: usize,
    sites: [Site; SITES],
    n: usize,
    position: usize,
    first: &[u8; SUMMARY],
) -> Indices
    requires held { (l : Library) × Held d.now l (take count blocks) (payload_at d.now at) sites n × (position < products l.sites) }
    requires first_held { FirstHeld d.now blocks count first.now }
    ensures { (l : Library) → Held d.now l (take count blocks) (payload_at d.now at) sites n
        → position < products l.sites → result ≡ product_at d.now l position }
{
    let xs = payload_at(d, at);
    let digits = choose(sites, n, position);
    let arms = arms_at(d, blocks, count, xs, sites, digits);
    let core = core_by(d, blocks, count, xs, sites, first);
    let k = n - 1;
    let arm = arms[k];
    let stem = stem_of(core, arms, k);
    stem.joined(arm)
}

// The fields of the product at a position of a library deck, or its refusal; `None` where all products are done: the position is at or past their number. Where
// the core is the deck's first block it is read once.
pub fn product(d: &[u8], position: usize) -> Result<Option<Indices>, Refusal>
    ensures { result ≡ said_product (product_reply d.now position) }
{
    let mut first = [0u8; SUMMARY];
    let l = read_library(d, &mut first);
    l.reply?;
    if l.products <= position {
        return Ok(None);
    }
    let blocks = l.blocks;
    let sites = l.sites;
    let all = fields_at(d, blocks, l.count, l.at, sites, l.n, position, &first);
    Ok(Some(all))
}

// Writes the sheet of the product at a position into the first bytes of a buffer, and hands back the next position; or `None` where all products are done: the
// position is at or past their number. That and a refusal write nothing.
pub fn step(
    d: &[u8],
    sheet: Sheet,
    position: usize,
    out: &mut [u8],
) -> Result<Option<usize>, Refusal>
    ensures reply { result ≡ said_step (suc position) (step_reply sheet d.now position (length out.old)) }
    ensures bytes { out.new ≡ step_out sheet out.old (step_reply sheet d.now position (length out.old)) }
{
    if LONGEST < d.len() {
        return Err(Rule::DeckLength.at(0));
    }
    if out.len() < bytes_of(sheet) {
        return Err(Rule::ShortOutput.at(0));
    }
    let told = product(d, position)?;
    let Some(all) = told else {
        return Ok(None);
    };
    put_sheet(out, sheet, all);
    Ok(Some(position + 1))
}

// The sheets of the products from a position on, as many as there are and a buffer has room for, and the next position.
fn run_over(
    core: Core,
    all: &ArmRows,
    sites: [Site; SITES],
    n: usize,
    many: usize,
    position: usize,
    sheet: Sheet,
    out: &mut [u8],
) -> usize
    requires { (d : List ℕ) × (l : Library) × (bs : List BlockAt) × (xs : List ℕ) × Spread d l bs xs sites n core all.now
        × (many ≡ products l.sites) }
    ensures { (d : List ℕ) (l : Library) (bs : List BlockAt) (xs : List ℕ) → Spread d l bs xs sites n core all.now
        → many ≡ products l.sites → (result ≡ (run_of sheet d position out.old).next)
        × (out.new ≡ (run_of sheet d position out.old).out) }
{
    let bytes = bytes_of(sheet);
    let mut p = position;
    let mut at = 0;
    while p < many {
        if out.len() - at < bytes {
            return p;
        }
        let stay = staying_at(core, all, sites, n, p);
        let reached = turn(stay, all, p, sheet, at, out);
        at = reached.at;
        p = reached.next;
    }
    p
}

// The same over a library that is read.
fn run_read(d: &[u8], l: LibraryRead, position: usize, sheet: Sheet, out: &mut [u8]) -> usize
    requires { (k : Library) × (library_reply d.now ≡ read k) × (l ≡ said_library (read k)) }
    ensures next { result ≡ (run_of sheet d.now position out.old).next }
    ensures bytes { out.new ≡ (run_of sheet d.now position out.old).out }
{
    let blocks = l.blocks;
    let sites = l.sites;
    let xs = payload_at(d, l.at);
    let core = core_at(d, blocks, l.count, xs, sites);
    let all = all_arms(d, blocks, l.count, xs, sites);
    run_over(core, &all, sites, l.n, l.products, position, sheet, out)
}

// Writes the sheets of the products from a position on, one after the other, as many whole ones as a buffer holds, and hands back the next position: what the
// steps write, each into what the one before left; or `None`, as a step does. The blocks are read once.
pub fn run(
    d: &[u8],
    sheet: Sheet,
    position: usize,
    out: &mut [u8],
) -> Result<Option<usize>, Refusal>
    ensures reply { result ≡ said_step (run_of sheet d.now position out.old).next
        (step_reply sheet d.now position (length out.old)) }
    ensures bytes { out.new ≡ (run_of sheet d.now position out.old).out }
{
    if LONGEST < d.len() {
        return Err(Rule::DeckLength.at(0));
    }
    if out.len() < bytes_of(sheet) {
        return Err(Rule::ShortOutput.at(0));
    }
    let l = read_library(d, &mut [0u8; 1]);
    l.reply?;
    if l.products <= position {
        return Ok(None);
    }
    let next = run_read(d, l, position, sheet, out);
    Ok(Some(next))
}

// A field's number is 1 to 6.
const FIELDS: usize = 6;

// How many products there are from a position on, for a row of n.
fn count_from(products: usize, position: usize, n: usize) -> usize
    ensures { result ≡ min n (products - position) }
{
    if products <= position {
        return 0;
    }
    let left = products - position;
    if left < n {
        return left;
    }
    n
}

// One field of the products from a position on, into the first places of a row.
fn values_over(
    core: Core,
    all: &ArmRows,
    sites: [Site; SITES],
    n: usize,
    position: usize,
    field: usize,
    count: usize,
    row: &mut [u64],
)
    requires by_index { (d : List ℕ) × (l : Library) × (bs : List BlockAt) × (xs : List ℕ) × Spread d l bs xs sites n core all.now
        × (count ≤ products l.sites - position) }
    requires count_in_bounds { (count ≤ length row.old) × (1 ≤ field) × (field ≤ most_fields) }
    ensures { (d : List ℕ) (l : Library) (bs : List BlockAt) (xs : List ℕ) → Spread d l bs xs sites n core all.now
        → count ≤ products l.sites - position
        → Filled (values_of d l field position) row.old row.new count }
{
    let mut at = 0;
    while at < count {
        let stay = staying_at(core, all, sites, n, position + at);
        let next = turn_values(stay, all, field, at, count, row);
        at = next;
    }
}

// The same over a library that is read.
fn values_read(
    d: &[u8],
    l: LibraryRead,
    position: usize,
    field: usize,
    count: usize,
    row: &mut [u64],
)
    requires d_value { (k : Library) × (library_reply d.now ≡ read k) × (l ≡ said_library (read k)) × (count ≤ products k.sites - position) }
    requires count_in_bounds { (count ≤ length row.old) × (1 ≤ field) × (field ≤ most_fields) }
    ensures { (k : Library) → library_reply d.now ≡ read k → l ≡ said_library (read k) → count ≤ products k.sites - position
        → Filled (values_of d.now k field position) row.old row.new count }
{
    let blocks = l.blocks;
    let sites = l.sites;
    let xs = payload_at(d, l.at);
    let core = core_at(d, blocks, l.count, xs, sites);
    let all = all_arms(d, blocks, l.count, xs, sites);
    values_over(core, &all, sites, l.n, position, field, count, row);
}

// Writes one field of the products from a position on into the first places of a row, as many as there are and it has room for, and hands back how many. The
// blocks are read once; no sheet is made.
pub fn values(d: &[u8], field: usize, position: usize, row: &mut [u64]) -> Result<u64, Refusal>
    ensures reply { result ≡ said_values (values_reply d.now field position (length row.old)) }
    ensures numbers { row.new ≡ values_out row.old (values_reply d.now field position (length row.old)) }
{
    let l = read_library(d, &mut [0u8; 1]);
    l.reply?;
    if is_outside(FIELDS, field) {
        return Err(Rule::ClaimField.at(0));
    }
    let count = count_from(l.products, position, row.len());
    values_read(d, l, position, field, count, row);
    Ok(count as u64)
}
