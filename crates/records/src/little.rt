// Numbers put into lent bytes and read there. One of four or eight bytes that are there is told in bytes, one behind the other with no test between two, so that
// they are stored or read at once.
ghost use Rattle.std.specs.Prelude.{true, ◌≡◌, ◌+◌, ◌*◌, ◌%◌, ◌^◌, ◌≤◌, ◌<◌, min, length, set};
ghost use Rattle.std.proofs.lemmas.List.Edits.{sets};
ghost use Rattle.records.specs.Bytes.{little, little_bytes};
ghost use Rattle.records.specs.Words.{four_at};

use super::byte_at;
use reply::wide;

fn low(x: u64) -> u8
    ensures { result ≡ x % 256 }
{
    (x % 256) as u8
}

fn put1(out: &mut [u8], at: usize, x: u64)
    requires { at < length out.old }
    ensures { out.new ≡ set out.old at (x % 256) }
{
    out[at] = low(x);
}

fn put2(out: &mut [u8], at: usize, x: u64)
    requires { at + 2 ≤ length out.old }
    ensures { out.new ≡ sets out.old at (little_bytes 2 x) }
{
    put1(out, at, x);
    put1(out, at + 1, x / 256);
}

fn put4(out: &mut [u8], at: usize, x: u64)
    requires { at + 4 ≤ length out.old }
    ensures { out.new ≡ sets out.old at (little_bytes 4 x) }
{
    put2(out, at, x);
    put2(out, at + 2, x / 256 / 256);
}

fn put8(out: &mut [u8], at: usize, x: u64)
    requires { at + 8 ≤ length out.old }
    ensures { out.new ≡ sets out.old at (little_bytes 8 x) }
{
    put4(out, at, x);
    put4(out, at + 4, x / 256 / 256 / 256 / 256);
}

// Byte by byte, those of `width` that there are.
fn put_bytes(out: &mut [u8], at: usize, width: usize, n: u64)
    ensures { out.new ≡ sets out.old at (little_bytes width n) }
{
    let mut k = at;
    let mut left = width;
    let mut rest = n;
    while left != 0 && k < out.len() {
        out[k] = low(rest);
        rest = rest / 256;
        k += 1;
        left -= 1;
    }
}

// Whether a number takes w bytes, and all of them are there.
fn is_whole(len: usize, at: usize, width: usize, w: usize) -> bool
    ensures { result ≡ true → (width ≡ w) × (at + w ≤ len) }
{
    if width != w {
        return false;
    }
    if len < w {
        return false;
    }
    at <= len - w
}

// A number in as many bytes as `width` says, from a place on, little-endian. Bytes that are not there are left out.
pub fn put_little(out: &mut [u8], at: usize, width: usize, n: u64)
    ensures { out.new ≡ sets out.old at (little_bytes width n) }
{
    if is_whole(out.len(), at, width, 8) {
        put8(out, at, n);
        return;
    }
    if is_whole(out.len(), at, width, 4) {
        put4(out, at, n);
        return;
    }
    put_bytes(out, at, width, n);
}

fn get4(d: &[u8], at: usize) -> u64
    requires { at + 4 ≤ length d.now }
    ensures { (result ≡ four_at d.now at) × (result < 2 ^ 32) }
{
    wide(d[at]) + 256 * wide(d[at + 1]) + 65536 * wide(d[at + 2]) + 16777216 * wide(d[at + 3])
}

fn get8(d: &[u8], at: usize) -> u64
    requires { at + 8 ≤ length d.now }
    ensures { result ≡ four_at d.now at + 4294967296 * four_at d.now (at + 4) }
{
    get4(d, at) + 4294967296 * get4(d, at + 4)
}

fn up_to_eight(width: usize) -> usize
    ensures { result ≡ min width 8 }
{
    if width < 8 { width } else { 8 }
}

// Byte by byte: the last first, which weighs most.
fn get_bytes(d: &[u8], at: usize, width: usize) -> u64
    ensures { result ≡ little (min width 8) d.now at }
{
    if d.len() <= at {
        return 0;
    }
    let mut n: u64 = 0;
    let mut k = up_to_eight(width);
    while 0 < k {
        k -= 1;
        n = 256 * n + wide(byte_at(d, at + k));
    }
    n
}

// The little-endian number of some bytes at a place, at most eight of them.
pub fn little_at(d: &[u8], at: usize, width: usize) -> u64
    ensures { result ≡ little (min width 8) d.now at }
{
    if is_whole(d.len(), at, width, 8) {
        return get8(d, at);
    }
    if is_whole(d.len(), at, width, 4) {
        return get4(d, at);
    }
    get_bytes(d, at, width)
}
