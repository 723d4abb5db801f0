// Reading a library deck: its refusals, where its sites stand, and how many products it has.
#![tactic(auto)]

mod candidates;
mod sites;

ghost use Rattle.std.specs.Prelude.{◌≡◌, ◌≤◌, length, take};
ghost use Rattle.records.specs.Records.{payload_at};
ghost use Rattle.deck.specs.Filled.{open_book};
ghost use Rattle.catalogue.specs.Library.{library_kind, after_blocks, library_reply};
ghost use Rattle.catalogue.specs.Products.{count_reply};
ghost use Rattle.catalogue.specs.Said.{refused_library, tabled_library, said_library};
ghost use Rattle.reply.specs.Read.{as_result};

use assembly::{BLOCKS, BlockTable, NO_BLOCK};
pub use candidates::CANDIDATE;
use compose::open_deck;
use records::{Kind, payload_at};
use reply::{Refusal, Rule};
use sites::{count_of, read_sites};

// Kind 5, library: the core's block number (2), site count (2), then the sites, each with candidates of its own number.
pub const LIBRARY: Kind = Kind {
    number: 5,
    fixed: 4,
    count: 2,
    item: 0,
    loose: true,
};

// The most sites of a core, and the most candidates of a site.
pub const SITES: usize = 4;

pub const CANDIDATES: usize = 8;

// A site: the core's atom, how many candidates it has, and where in the record's payload the first of them stands.
#[derive(Clone, Copy, Debug, PartialEq, Eq)]
pub struct Site {
    pub atom: u8,
    pub many: u8,
    pub first: usize,
}

// An empty place in a table of sites: no site has no candidates.
pub const NO_SITE: Site = Site {
    atom: 0,
    many: 0,
    first: 0,
};

// A library deck is fine or refused. Where it is fine: its blocks, the first byte of the library's record, its sites in order, and the number of its products.
#[derive(Clone, Copy, Debug, PartialEq, Eq)]
pub struct LibraryRead {
    pub reply: Result<(), Refusal>,
    pub count: usize,
    pub blocks: BlockTable,
    pub at: usize,
    pub n: usize,
    pub sites: [Site; SITES],
    pub products: usize,
}

fn library_refused(reply: Result<(), Refusal>) -> LibraryRead
    ensures { result ≡ refused_library reply }
{
    let blocks = [NO_BLOCK; BLOCKS];
    let sites = [NO_SITE; SITES];
    LibraryRead {
        reply,
        count: 0,
        blocks,
        at: 0,
        n: 0,
        sites,
        products: 0,
    }
}

// The library's record at a place, after the first `count` blocks, and nothing after its end.
fn read_record(d: &[u8], blocks: BlockTable, count: usize, at: usize, end: usize) -> LibraryRead
    requires { library_kind.fixed ≤ length (payload_at d.now at) }
    ensures { result ≡ tabled_library blocks count (after_blocks d.now (take count blocks) at end) }
{
    let xs = payload_at(d, at);
    let s = read_sites(d, blocks, count, xs, at);
    let reply = s.reply;
    let Ok(()) = reply else {
        return library_refused(reply);
    };
    if end < d.len() {
        return library_refused(Err(Rule::RecordCut.at(end)));
    }
    let sites = s.sites;
    let products = count_of(sites, s.n);
    LibraryRead {
        reply: Ok(()),
        count,
        blocks,
        at,
        n: s.n,
        sites,
        products,
    }
}

// What a library deck says: its blocks, then its record, each taken or refused with its place. The blocks are opened in a lent book, as far as it has places.
pub fn read_library(d: &[u8], book: &mut [u8]) -> LibraryRead
    ensures reply { result ≡ said_library (library_reply d.now) }
    ensures bytes { book.new ≡ open_book library_kind d.now book.old }
{
    let k = open_deck(d, LIBRARY, book);
    let reply = k.reply;
    let Ok(()) = reply else {
        return library_refused(reply);
    };
    let layout = k.layout;
    let blocks = layout.blocks;
    read_record(d, blocks, layout.count, layout.assembly, layout.sheet)
}

// How many products a library deck has, or its refusal.
pub fn count(d: &[u8]) -> Result<u64, Refusal>
    ensures { result ≡ as_result (count_reply d.now) }
{
    let l = read_library(d, &mut [0u8; 1]);
    l.reply?;
    Ok(l.products as u64)
}
