// The functions of the library as C calls them, under the convention of include/tteuyomal.h. Each is one line: what it calls stands in a crate below, with the
// same promise. What the archive exports is in `tteuyomal_c`, which calls these.
#![tactic(auto)]

pub mod blocks;
pub mod claims_printed;
pub mod decks;
pub mod large;
pub mod libraries;
pub mod texts;
pub mod two_queues;
pub mod version;
