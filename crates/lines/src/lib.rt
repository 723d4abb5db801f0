// Lines of the tables that the programs `numbers` and `deck_numbers` put to the public functions: their numbers, what a reply has to say for them, and a tally. It is
// a part of that test and of nothing else, so its functions promise no more than that they end; those that read or print hand on std's error.
#![tactic(auto)]

pub mod input;
pub mod row;
pub mod subject;
pub mod table;
pub mod tally;
pub mod told;
