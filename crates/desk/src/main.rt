// Judges the sheets of decks, or measures molfiles or neighbour texts: `judge`, `measure` or `neighbours`, and files.
#![tactic(auto)]

use std::io;

fn main(rt: HostRuntime) -> io::Result<()> {
    console::serve_by_word(&rt)
}
