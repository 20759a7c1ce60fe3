// Tells of large input: the outline and the tabulation of a listing of 1,000 statements, the ends of its reports, which need far more room
// than a sheet has, and a trail of 4,094 moves, explained and reviewed.
#![tactic(auto)]

use explanation::told::{Asked, Pair, explain_listing};
use findings::listed::report_listing;
use findings::room::Room;
use flow::choice::Choice;
use listing::numbers::{Fact, Point};
use overview::outline::outline;
use paths::worklist::End;
use progress::portion::{Pace, Portion};
use progress::told::{Tabulation, tabulate_listing};
use review::told::review_listing;
use std::fs;
use text::input::take_listing;

// So many records and so large a page as no listing needs.
const ROOM: Room = Room {
    records: 4_096_000,
    page: 1 << 20,
};

// The outline of a listing, the first and the last line of each report, and its tabulation in portions of 10,000 cells.
fn tell_longest(rt: &HostRuntime) -> anyhow::Result<()> {
    let bytes = take_listing(rt.alloc(), fs::open(rt, "longest.txt")?)?;
    let outline = outline(rt.alloc(), bytes.as_slice())?;
    print!(rt; "{outline}")?;
    let reports = report_listing(rt.alloc(), bytes.as_slice(), ROOM)?;
    for line in reports.as_str().lines() {
        if line.starts_with("p") {
            println!(rt; "{line}")?;
        }
    }
    if let Some(portion) = Portion::new(10_000) {
        let tabulation = Tabulation {
            choice: Choice::Unset,
            pace: Pace {
                portion,
                from: End::Newest,
            },
        };
        let told = tabulate_listing(rt.alloc(), bytes.as_slice(), tabulation)?;
        print!(rt; "{told}")?;
    }
    Ok(())
}

// How many lines a text has, and every 256th of them and the last.
fn tell_some(rt: &HostRuntime, text: &str) -> anyhow::Result<()> {
    let count = text.lines().count();
    println!(rt; "lines {count}")?;
    for (at, line) in text.lines().enumerate() {
        if at % 256 == 0 || at.checked_add(1) == Some(count) {
            println!(rt; "{line}")?;
        }
    }
    Ok(())
}

// The trail of a pair, which its calls make long: as the listing gives it, and as its words do.
fn tell_nested(rt: &HostRuntime) -> anyhow::Result<()> {
    let bytes = take_listing(rt.alloc(), fs::open(rt, "nested.txt")?)?;
    let asked = Asked {
        choice: Choice::Raw,
        pair: Pair {
            point: Point(3),
            fact: Fact(1),
        },
    };
    let told = explain_listing(rt.alloc(), bytes.as_slice(), asked)?;
    tell_some(rt, told.as_str())?;
    let trail = fs::read_to_string(rt, "nested.trail")?;
    let mut words = Vec::new(rt.alloc());
    for word in trail.as_str().lines().skip(1) {
        words.push(u32::from_str_radix(word, 16)?)?;
    }
    let told = review_listing(rt.alloc(), bytes.as_slice(), Choice::Raw, words.as_slice())?;
    tell_some(rt, told.as_str())
}

fn main(rt: HostRuntime) -> anyhow::Result<()> {
    tell_longest(&rt)?;
    tell_nested(&rt)
}
