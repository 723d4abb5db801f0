// A core and arms, each joined by a bond to an atom of the core: composed arm by arm, so that the first arms can stay while the last one turns.
#![tactic(auto)]

ghost use Rattle.std.specs.Prelude.{◌≡◌, ◌-◌, ◌<◌, min};
ghost use Rattle.arms.specs.Arms.{most_arms, arm_row, row_arm, opened, arm_in, ports_near, port_in, core_in, sight_at, stem_of, joined_to};

use block::{DistanceRow, Indices, Vertex};
use filling::fill;
use joining::grown;
use reply::wide;
use sighted::{NO_VERTEX, steps};
pub use summary::SUMMARY;
use summary::{fields, seen};

// The most arms of a core.
pub const ARMS: usize = 4;

const NO_FIELDS: Indices = Indices {
    atoms: 0,
    w: 0,
    even: 0,
    odd: 0,
    polarity: 0,
    largest: 0,
};

// What is kept of a block as an arm: its fields, and what is counted from the atom where it joins.
#[derive(Clone, Copy, Debug, PartialEq, Eq)]
pub struct Arm {
    pub six: Indices,
    pub end: Vertex,
}

pub const NO_ARM: Arm = Arm {
    six: NO_FIELDS,
    end: NO_VERTEX,
};

// An arm as a row of numbers, since an array of structs is not lent; and back.
pub type ArmRow = [u64; 14];

pub fn arm_row(arm: Arm) -> ArmRow
    ensures { result ≡ arm_row arm }
{
    let x = arm.six;
    let v = arm.end;
    [
        x.atoms, x.w, x.even, x.odd, x.polarity, x.largest, v.sum, v.even, v.odd, v.evens, v.odds,
        v.ones, v.twos, v.farthest,
    ]
}

pub fn row_arm(row: ArmRow) -> Arm
    ensures { result ≡ row_arm row }
{
    let six = Indices {
        atoms: row[0],
        w: row[1],
        even: row[2],
        odd: row[3],
        polarity: row[4],
        largest: row[5],
    };
    let end = Vertex {
        sum: row[6],
        even: row[7],
        odd: row[8],
        evens: row[9],
        odds: row[10],
        ones: row[11],
        twos: row[12],
        farthest: row[13],
    };
    Arm { six, end }
}

// What is kept of an atom of the core where an arm joins: what is counted from it, and the number of steps to the atom of each arm.
#[derive(Clone, Copy, Debug, PartialEq, Eq)]
pub struct Port {
    pub counts: Vertex,
    pub near: [u8; ARMS],
}

const NO_PORT: Port = Port {
    counts: NO_VERTEX,
    near: [0u8; ARMS],
};

// What is kept of a block as the core: its fields, and the atoms where arms join.
#[derive(Clone, Copy, Debug, PartialEq, Eq)]
pub struct Core {
    pub six: Indices,
    pub ends: [Port; ARMS],
}

// The running summary of a core with its first arms: the fields, and what is counted from the atom where the next arm joins.
#[derive(Clone, Copy, Debug, PartialEq, Eq)]
pub struct Stem {
    pub six: Indices,
    pub from: Vertex,
}

impl Stem {
    // The fields with one arm more.
    pub fn joined(self, arm: Arm) -> Indices
        ensures { result ≡ joined_to self arm }
    {
        joining::joined(self.six, arm.six, self.from, arm.end)
    }
}

// A block opened in a place under a number, whatever the place had: empty where the block is refused.
pub fn open_in(number: u16, n: usize, bonds: &[u8], place: &mut [u8; SUMMARY])
    ensures { place.new ≡ opened number n bonds.now }
{
    *place = [0u8; SUMMARY];
    let _ = fill(number, n, bonds, place);
}

// What is kept of the block that is opened in a place, and joins at atom a: 0 in all where the place is empty.
pub fn arm_in(s: &[u8], a: usize) -> Arm
    ensures { result ≡ arm_in s.now a }
{
    let six = fields(s);
    let end = seen(s, a).counts;
    Arm { six, end }
}

// The numbers of steps to the atoms where arms join that a row says.
fn near_in(row: &DistanceRow, atoms: [u8; ARMS]) -> [u8; ARMS]
    ensures { result ≡ ports_near row.now atoms }
{
    let mut near = [0u8; ARMS];
    for j in 0..ARMS {
        near[j] = steps(row, atoms[j] as usize);
    }
    near
}

// Of the atoms where arms join, what is kept of one: all from one search.
fn port_in(s: &[u8], atoms: [u8; ARMS], a: usize) -> Port
    ensures { result ≡ port_in s.now atoms a }
{
    let all = seen(s, a);
    let row = all.row;
    let near = near_in(&row, atoms);
    let counts = all.counts;
    Port { counts, near }
}

// What is kept of the block that is opened in a place, and to whose atoms arms join: one search from each.
pub fn core_in(s: &[u8], atoms: [u8; ARMS]) -> Core
    ensures { result ≡ core_in s.now atoms }
{
    let six = fields(s);
    let mut ends = [NO_PORT; ARMS];
    for k in 0..ARMS {
        ends[k] = port_in(s, atoms, atoms[k] as usize);
    }
    Core { six, ends }
}

// What is counted from the atom of arm k once the arms before it are joined.
fn sight(ends: [Port; ARMS], arms: [Arm; ARMS], k: usize) -> Vertex
    requires { k < most_arms }
    ensures { result ≡ sight_at ends arms k k }
{
    let own = ends[k];
    let mut v = own.counts;
    for m in 0..k {
        let end = ends[m];
        let arm = arms[m];
        let near = end.near;
        let d = wide(near[k]);
        v = grown(v, d, arm.end);
    }
    v
}

fn within(m: usize) -> usize
    ensures { result ≡ min m (most_arms - 1) }
{
    if m < ARMS {
        return m;
    }
    ARMS - 1
}

// The core with its first m arms, at most all but one.
pub fn stem_of(core: Core, arms: [Arm; ARMS], m: usize) -> Stem
    ensures { result ≡ stem_of core arms (min m (most_arms - 1)) }
{
    let n = within(m);
    let ends = core.ends;
    let first = ends[0];
    let mut from = first.counts;
    let mut six = core.six;
    for k in 0..n {
        let arm = arms[k];
        six = joining::joined(six, arm.six, from, arm.end);
        from = sight(ends, arms, k + 1);
    }
    Stem { six, from }
}
