// Prints the reports of each of 84 listings.
#![tactic(auto)]

use findings::listed::sheet;
use std::fs;
use text::input::take_listing;

fn tell(rt: &HostRuntime, n: u8) -> anyhow::Result<()> {
    let name = format!(in rt.alloc(); "{n:03}")?;
    let listing = format!(in rt.alloc(); "{name}.txt")?;
    let bytes = take_listing(rt.alloc(), fs::open(rt, listing.as_str())?)?;
    let told = sheet(rt.alloc(), bytes.as_slice())?;
    print!(rt; "{name}\n{told}")?;
    Ok(())
}

// The files are numbered. A loop shared with the other such programs would take the step as a closure and ask that it may be called, and no public function asks
// anything; nor can a contract say what a file holds.
fn main(rt: HostRuntime) -> anyhow::Result<()> {
    for n in 1..=84 {
        tell(&rt, n)?;
    }
    Ok(())
}
