// Tabulates a problem over the listing on standard input, and tells the trail of a pair, move by move with the listing's own statement beside
// each, or why there is none. The first argument is the problem, `unset` or `raw`, the second the point, the third the fact.
#![tactic(auto)]

ghost use Rattle.std.specs.Prelude.{IfSome, OnOk};
ghost use Rattle.std.specs.Io.KnownBytes.{Appends};
ghost use Rattle.explanation.specs.Told.{told_of};

use anyhow::{Context, Error};
use explanation::told::{Asked, Pair, explain_listing};
use listing::numbers::{Fact, Point};
use std::alloc::Global;
use std::env;
use std::io::{Read, Write};
use text::input::take_listing;

// What the arguments ask for, or what is wrong with them.
fn asked(words: &[String]) -> anyhow::Result<Asked> {
    let mut words = words.iter();
    let choice = words
        .next()
        .and_then(|word| word.as_str().parse().ok())
        .context("the first argument is the problem, unset or raw")?;
    let point = words
        .next()
        .and_then(|word| word.as_str().parse().ok())
        .map(Point)
        .context("the second argument is the number of a point, 0 to 65535")?;
    let fact = words
        .next()
        .and_then(|word| word.as_str().parse().ok())
        .map(Fact)
        .context("the third argument is the number of a fact, 0 to 255")?;
    if words.next().is_some() {
        return Err(Error::msg("there is no fourth argument"));
    }
    Ok(Asked {
        choice,
        pair: Pair { point, fact },
    })
}

// Writes what is told of a pair over the listing that a reader gives.
fn run<I: Read + Drop, O: Write>(
    heap: Global,
    input: I,
    output: &mut O,
    asked: Asked,
) -> anyhow::Result<()>
    ensures { OnOk result (IfSome (I.remaining input) (λ t. Appends (O.contents output.old) (O.contents output.new)
        (told_of t asked.choice asked.pair.point.0 asked.pair.fact.0))) }
{
    let bytes = take_listing(heap, input)?;
    let told = explain_listing(heap, bytes.as_slice(), asked)?;
    output.write_all(told.as_bytes())?;
    Ok(())
}

fn main(rt: HostRuntime) -> anyhow::Result<()> {
    let words: Vec<String> = env::args(&rt)?.skip(1).collect(rt.alloc())?;
    let asked = asked(words.as_slice())?;
    run(rt.alloc(), rt.stdin(), &mut rt.stdout(), asked)
}

#[cfg(test)]
mod tests {
    use super::*;
    use std::alloc::AllocError;
    use std::test::Fail;

    const LISTING: &[u8] = b"cells 0 1\nread l0\nret l0\n";

    fn words_of(heap: Global, words: &[&str]) -> Result<Vec<String>, AllocError> {
        let mut all = Vec::new(heap);
        for word in words {
            all.push(String::from_str(heap, word)?)?;
        }
        Ok(all)
    }

    // What is told of a listing, as the arguments ask.
    fn told_of(heap: Global, listing: &[u8], words: &[&str]) -> anyhow::Result<String> {
        let words = words_of(heap, words)?;
        let asked = asked(words.as_slice())?;
        Ok(explain_listing(heap, listing, asked)?)
    }

    // Arguments that are wrong.
    #[test]
    fn wrong_arguments(rt: HostRuntime) -> Result<(), Fail> {
        let wrong: [&[&str]; 8] = [
            &[],
            &["Unset", "1", "0"],
            &["unset"],
            &["unset", "-1", "0"],
            &["unset", "1"],
            &["unset", "1", "256"],
            &["unset", "1", "0", "0"],
            &["unset", "1", "0", "0", "0"],
        ];
        for words in wrong {
            let words = words_of(rt.alloc(), words)?;
            assert!(rt; asked(words.as_slice()).is_err());
        }
        Ok(())
    }

    // The point comes before the fact: the pair (1, 0) has a trail of two moves, and (0, 1) is not reached.
    #[test]
    fn right_arguments(rt: HostRuntime) -> Result<(), Fail> {
        let told = told_of(rt.alloc(), LISTING, &["raw", "1", "0"])?;
        assert_eq!(rt;
            told.as_str(),
            "start point 0 fact 0 zero open 0: read l0\nstep point 1 fact 0 zero open 0: ret l0\n"
        );
        let told = told_of(rt.alloc(), LISTING, &["raw", "0", "1"])?;
        assert_eq!(rt; told.as_str(), "refused 15 at 0\n");
        let told = told_of(rt.alloc(), LISTING, &["raw", "2", "0"])?;
        assert_eq!(rt; told.as_str(), "refused 13 at 0\n");
        Ok(())
    }

    // The one path of the longest listing with the most cells, from its first statement to its last, is told whole.
    #[test]
    fn long_trail(rt: HostRuntime) -> Result<(), Fail> {
        let mut listing = String::from_str(rt.alloc(), "cells 31 32\nread l0\n")?;
        for _ in 0..998 {
            listing.push_str("send l0\n")?;
        }
        listing.push_str("ret l0\n")?;
        let told = told_of(rt.alloc(), listing.as_bytes(), &["raw", "999", "32"])?;
        assert_eq!(rt; told.as_str().lines().count(), 1000);
        assert!(rt;
            told.as_str()
                .ends_with("step point 999 fact 32 cell 31 open 0: ret l0\n")
        );
        Ok(())
    }

    // There is room for 4096 moves. What procedure 0 reads comes back from its two calls, and there from two calls each, twelve times.
    #[test]
    fn too_long_trail(rt: HostRuntime) -> Result<(), Fail> {
        let mut listing = String::from_str(rt.alloc(), "cells 1 1\nread g0\n")?;
        for p in 1..=12 {
            let calls = format!(in rt.alloc(); "call l0 {p} l0\ncall l0 {p} l0\nret l0\n")?;
            listing.push_str(calls.as_str())?;
        }
        listing.push_str("ret l0\n")?;
        let told = told_of(rt.alloc(), listing.as_bytes(), &["raw", "3", "1"])?;
        assert_eq!(rt; told.as_str(), "refused 17 at 0\n");
        Ok(())
    }
}
