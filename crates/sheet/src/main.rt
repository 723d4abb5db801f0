// Prints the sheet of a deck that has none.
#![tactic(auto)]

use std::io;

fn main(rt: HostRuntime) -> io::Result<()> {
    console::serve_sheets(&rt)
}
