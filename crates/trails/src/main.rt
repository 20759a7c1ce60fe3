// Tells each of 120 trails, lawful and damaged.
#![tactic(auto)]

use flow::choice::Choice;
use review::told::review_listing;
use std::fs;
use text::input::take_listing;

fn tell(rt: &HostRuntime, n: u8) -> anyhow::Result<()> {
    let name = format!(in rt.alloc(); "{n:03}")?;
    let listing = format!(in rt.alloc(); "{name}.txt")?;
    let bytes = take_listing(rt.alloc(), fs::open(rt, listing.as_str())?)?;
    let trail = format!(in rt.alloc(); "{name}.trail")?;
    let trail = fs::read_to_string(rt, trail.as_str())?;
    // the problem in a line, unset where there is none, and a word in each other
    let mut choice = Choice::Unset;
    let mut words = Vec::new(rt.alloc());
    for line in trail.as_str().lines() {
        match line {
            "raw" => choice = Choice::Raw,
            "unset" => {}
            word => words.push(u32::from_str_radix(word, 16)?)?,
        }
    }
    let told = review_listing(rt.alloc(), bytes.as_slice(), choice, words.as_slice())?;
    print!(rt; "{name}\n{told}")?;
    Ok(())
}

// The files are numbered. A loop shared with the other such programs would take the step as a closure and ask that it may be called, and no public function asks
// anything; nor can a contract say what a file holds.
fn main(rt: HostRuntime) -> anyhow::Result<()> {
    for n in 1..=120 {
        tell(&rt, n)?;
    }
    Ok(())
}
