// The sites of a library's record, one by one.
ghost use Rattle.std.specs.Prelude.{◌≡◌, [], ◌≤◌, length, take};
ghost use Rattle.reply.specs.Read.{refused, refusal};
ghost use Rattle.assembly.specs.Book.{block_graph, book_of};
ghost use Rattle.catalogue.specs.Library.{most_sites, library_kind, site_at, is_taken, site_fault, sites_from, sites_reply};
ghost use Rattle.catalogue.specs.Products.{products};
ghost use Rattle.catalogue.specs.Said.{said_sites};
ghost use Rattle.catalogue.specs.Table.{sites_in};

use super::candidates::{CANDIDATE, candidates_fault};
use super::{CANDIDATES, LIBRARY, NO_SITE, SITES, Site};
use assembly::{BlockAt, BlockTable, find_block, is_numbered};
use records::{byte_at, le16_at};
use reply::{Refusal, is_outside, wide_byte};

// The bytes before a site's candidates, and those before the sites.
const SITE_HEAD: usize = 2;

const RECORD_HEAD: usize = LIBRARY.fixed as usize;

const SITE_COUNT: usize = LIBRARY.count as usize;

// The sites of a record, or its refusal.
#[derive(Clone, Copy)]
pub(crate) struct SitesRead {
    pub(crate) reply: Result<(), Refusal>,
    pub(crate) n: usize,
    pub(crate) sites: [Site; SITES],
}

fn sites_refused(number: usize, place: usize) -> SitesRead
    ensures { result ≡ said_sites (refused (refusal number place)) }
{
    let sites = [NO_SITE; SITES];
    SitesRead {
        reply: Err(Refusal { number, place }),
        n: 0,
        sites,
    }
}

// How many products the first n sites have.
pub(crate) fn count_of(sites: [Site; SITES], n: usize) -> usize
    requires { n ≤ most_sites }
    ensures { result ≡ products (sites_in sites n) }
{
    let mut total = 1;
    for k in 0..n {
        let s = sites[k];
        total = total * wide_byte(s.many);
    }
    total
}

// Whether one of the first n sites is at an atom.
fn is_taken(sites: [Site; SITES], n: usize, atom: u8) -> bool
    requires { n ≤ most_sites }
    ensures { result ≡ is_taken (sites_in sites n) atom }
{
    let mut k = n;
    while 0 < k {
        k -= 1;
        let s = sites[k];
        if s.atom == atom {
            return true;
        }
    }
    false
}

// The site at a place of a payload.
fn site_at(xs: &[u8], p: usize) -> Site
    requires { p ≤ length xs.now }
    ensures { result ≡ site_at xs.now p }
{
    Site {
        atom: byte_at(xs, p),
        many: byte_at(xs, p + 1),
        first: p + SITE_HEAD,
    }
}

// What is wrong with the site at a place, after the first n: 13, 32, 18, 33, what is wrong with a candidate, or 0.
fn site_fault(
    d: &[u8],
    blocks: BlockTable,
    count: usize,
    core: BlockAt,
    sites: [Site; SITES],
    n: usize,
    xs: &[u8],
    p: usize,
) -> usize
    requires { (p ≤ length xs.now) × (n ≤ most_sites) }
    ensures { result ≡ site_fault (book_of d.now (take count blocks)) (block_graph d.now core) xs.now
        (sites_in sites n) p }
{
    if xs.len() < p + SITE_HEAD {
        return 13;
    }
    let s = site_at(xs, p);
    if is_outside(CANDIDATES, s.many as usize) {
        return 32;
    }
    if is_outside(core.atoms as usize, s.atom as usize) {
        return 18;
    }
    if is_taken(sites, n, s.atom) {
        return 33;
    }
    candidates_fault(d, blocks, count, core, s.atom, s.many as usize, xs, s.first)
}

// Some sites, one after the other, and nothing left over.
fn sites_from(
    d: &[u8],
    blocks: BlockTable,
    count: usize,
    core: BlockAt,
    xs: &[u8],
    at: usize,
    total: usize,
) -> SitesRead
    requires { (total ≤ most_sites) × (library_kind.fixed ≤ length xs.now) }
    ensures { result ≡ said_sites (sites_from (book_of d.now (take count blocks)) (block_graph d.now core)
        xs.now at total library_kind.fixed []) }
{
    let mut sites = [NO_SITE; SITES];
    let mut n = 0;
    let mut p = RECORD_HEAD;
    while n < total {
        let f = site_fault(d, blocks, count, core, sites, n, xs, p);
        if f != 0 {
            return sites_refused(f, at);
        }
        let s = site_at(xs, p);
        sites[n] = s;
        n += 1;
        p = s.first + CANDIDATE * wide_byte(s.many);
    }
    if p < xs.len() {
        return sites_refused(13, at);
    }
    SitesRead {
        reply: Ok(()),
        n,
        sites,
    }
}

// The sites of the payload of a library's record that starts at a place: 31, 16 for the core, and the sites'.
pub(crate) fn read_sites(
    d: &[u8],
    blocks: BlockTable,
    count: usize,
    xs: &[u8],
    at: usize,
) -> SitesRead
    requires { library_kind.fixed ≤ length xs.now }
    ensures { result ≡ said_sites (sites_reply (book_of d.now (take count blocks)) xs.now at) }
{
    let total = le16_at(xs, SITE_COUNT) as usize;
    if is_outside(SITES, total) {
        return sites_refused(31, at);
    }
    let number = le16_at(xs, 0) as usize;
    let core = find_block(blocks, count, number);
    if !is_numbered(core, number) {
        return sites_refused(16, at);
    }
    sites_from(d, blocks, count, core, xs, at, total)
}
