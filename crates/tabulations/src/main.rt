// Tabulates each of 100 listings in portions.
#![tactic(auto)]

use anyhow::Context;
use flow::choice::Choice;
use paths::worklist::End;
use progress::portion::{Pace, Portion};
use progress::told::{Tabulation, tabulate_listing};
use std::fs;
use text::input::take_listing;

// What a run asks for, a line each: the problem, the number of cells in a portion, and the end of the row.
fn tabulation_of(text: &str) -> anyhow::Result<Tabulation> {
    let mut lines = text.lines();
    let choice = lines.next().and_then(|line| line.parse().ok());
    let size = lines
        .next()
        .context("a run names no portion")?
        .parse::<u32>()?;
    let portion = Portion::new(size).context("a run names no portion")?;
    let from = if lines.any(|line| line == "newest") {
        End::Newest
    } else {
        End::Oldest
    };
    Ok(Tabulation {
        choice: choice.unwrap_or(Choice::Unset),
        pace: Pace { portion, from },
    })
}

fn tell(rt: &HostRuntime, n: u8) -> anyhow::Result<()> {
    let name = format!(in rt.alloc(); "{n:03}")?;
    let listing = format!(in rt.alloc(); "{name}.txt")?;
    let bytes = take_listing(rt.alloc(), fs::open(rt, listing.as_str())?)?;
    let run = format!(in rt.alloc(); "{name}.run")?;
    let run = fs::read_to_string(rt, run.as_str())?;
    let tabulation = tabulation_of(run.as_str())?;
    let told = tabulate_listing(rt.alloc(), bytes.as_slice(), tabulation)?;
    print!(rt; "{name}\n{told}")?;
    Ok(())
}

// The files are numbered. A loop shared with the other such programs would take the step as a closure and ask that it may be called, and no public function asks
// anything; nor can a contract say what a file holds.
fn main(rt: HostRuntime) -> anyhow::Result<()> {
    for n in 1..=100 {
        tell(&rt, n)?;
    }
    Ok(())
}
