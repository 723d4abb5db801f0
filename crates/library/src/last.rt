// The last site turns while the others stay: what they are joined to is made once for all its candidates.
ghost use Rattle.std.specs.Prelude.{◌≡◌, List, ℕ, ◌+◌, ◌-◌, ◌≤◌, ◌<◌, length};
ghost use Rattle.assembly.specs.declared.BlockAt.{BlockAt};
ghost use Rattle.sheets.specs.Sheets.{sheet_bytes};
ghost use Rattle.catalogue.specs.Library.{Library};
ghost use Rattle.catalogue.specs.Products.{products};
ghost use Rattle.library.specs.Steps.{Ran};
ghost use Rattle.library.specs.Held.{Spread};
ghost use Rattle.library.specs.Turning.{Going, Turns};
ghost use Rattle.library.specs.Filled.{Filled};
ghost use Rattle.library.specs.Values.{most_fields, field_at, values_of};

use super::choice::choose;
use arms::{Core, Stem, row_arm, stem_of};
use block::Indices;
use catalogue::{CANDIDATES, SITES, Site};
use records::Sheet;
use sheets::{bytes_of, put_sheet};
use stock::{ArmRows, arms_among};

// What stays while the last site turns: the core with the other sites' arms. The arms that are joined to it stand at this place among all, and `left` of them
// are to come.
#[derive(Clone, Copy)]
pub(crate) struct Staying {
    pub(crate) stem: Stem,
    pub(crate) place: usize,
    pub(crate) left: usize,
}

// How far a run has come: the next position, and how much of the buffer is written.
#[derive(Clone, Copy)]
pub(crate) struct Reached {
    pub(crate) next: usize,
    pub(crate) at: usize,
}

// What stays from a position on.
pub(crate) fn staying_at(
    core: Core,
    all: &ArmRows,
    sites: [Site; SITES],
    n: usize,
    position: usize,
) -> Staying
    requires { (d : List ℕ) × (l : Library) × (bs : List BlockAt) × (xs : List ℕ)
        × Spread d l bs xs sites n core all.now × (position < products l.sites) }
    ensures { (d : List ℕ) (l : Library) (bs : List BlockAt) (xs : List ℕ)
        → Spread d l bs xs sites n core all.now → position < products l.sites
        → Turns d l all.now position result }
{
    let digits = choose(sites, n, position);
    let k = n - 1;
    let arms = arms_among(all, digits);
    let stem = stem_of(core, arms, k);
    let s = sites[k];
    let digit = digits[k];
    let place = CANDIDATES * k + digit;
    let left = (s.many as usize) - digit;
    Staying { stem, place, left }
}

// The sheets of the products from a position on, until the last site has turned or the buffer has no room.
pub(crate) fn turn(
    stay: Staying,
    all: &ArmRows,
    position: usize,
    sheet: Sheet,
    start: usize,
    out: &mut [u8],
) -> Reached
    requires by_index { (d : List ℕ) × (l : Library) × Turns d l all.now position stay }
    requires start_in_bounds { start ≤ length out.old }
    ensures within { result.at ≤ length out.new }
    ensures on { sheet_bytes sheet ≤ length out.old - start → position < result.next }
    ensures goes { (d : List ℕ) (l : Library) (whole : Ran) → Turns d l all.now position stay
        → Going sheet d whole out.old position start
        → Going sheet d whole out.new result.next result.at }
{
    let bytes = bytes_of(sheet);
    let stem = stay.stem;
    let place = stay.place;
    let left = stay.left;
    let mut k = 0;
    let mut at = start;
    while k < left {
        if out.len() - at < bytes {
            let next = position + k;
            return Reached { next, at };
        }
        let arm = row_arm(all[place + k]);
        let x = stem.joined(arm);
        put_sheet(&mut out[at..], sheet, x);
        at += bytes;
        k += 1;
    }
    let next = position + k;
    Reached { next, at }
}

// A field by its number on the sheet.
fn field_of(x: Indices, field: usize) -> u64
    requires { (1 ≤ field) × (field ≤ most_fields) }
    ensures { result ≡ field_at field x }
{
    let all = [x.atoms, x.w, x.even, x.odd, x.polarity, x.largest];
    let k = field - 1;
    all[k]
}

// One field of the products from a position on, into a row from a place on, until the last site has turned or the place `end` is reached; the next place.
pub(crate) fn turn_values(
    stay: Staying,
    all: &ArmRows,
    field: usize,
    start: usize,
    end: usize,
    row: &mut [u64],
) -> usize
    requires by_index { (d : List ℕ) × (l : Library) × (position : ℕ) × Turns d l all.now position stay }
    requires start_lt_end { (start < end) × (end ≤ length row.old) × (1 ≤ field) × (field ≤ most_fields) }
    ensures on { (start < result) × (result ≤ end) }
    ensures fills { (d : List ℕ) (l : Library) (position : ℕ) (old : List ℕ) → Turns d l all.now (position + start) stay
        → Filled (values_of d l field position) old row.old start
        → Filled (values_of d l field position) old row.new result }
{
    let stem = stay.stem;
    let place = stay.place;
    let left = stay.left;
    let mut i = 0;
    while i < left {
        let at = start + i;
        if at == end {
            return end;
        }
        let arm = row_arm(all[place + i]);
        let x = stem.joined(arm);
        row[at] = field_of(x, field);
        i += 1;
    }
    start + i
}
