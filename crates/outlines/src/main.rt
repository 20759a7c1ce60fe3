// Tells the outline of each of 200 listings, good and damaged.
#![tactic(auto)]

use overview::outline::outline;
use std::fs;
use text::input::take_listing;

fn tell(rt: &HostRuntime, n: u8) -> anyhow::Result<()> {
    let name = format!(in rt.alloc(); "{n:03}")?;
    let path = format!(in rt.alloc(); "{name}.txt")?;
    let bytes = take_listing(rt.alloc(), fs::open(rt, path.as_str())?)?;
    let told = outline(rt.alloc(), bytes.as_slice())?;
    print!(rt; "{name}\n{told}")?;
    Ok(())
}

// The files are numbered. A loop shared with the other such programs would take the step as a closure and ask that it may be called, and no public function asks
// anything; nor can a contract say what a file holds.
fn main(rt: HostRuntime) -> anyhow::Result<()> {
    for n in 1..=200 {
        tell(&rt, n)?;
    }
    Ok(())
}
