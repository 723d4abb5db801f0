// The exports of the archive: the functions of the crate `tteuyomal`, each with the same clauses and one call. Written by docs/exports.
#![tactic(auto)]

mod blocks;
mod claims_printed;
mod decks;
mod large;
mod libraries;
mod texts;
mod two_queues;
mod version;
