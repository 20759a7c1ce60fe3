// Tabulates the listing on standard input in portions, and tells the tallies after each portion and then the number of cells. The
// first argument is the problem, `unset` or `raw`, the second the number of cells in a portion; the third, which may be left out, is
// the end of the row from which cells are taken, `oldest` or `newest`.
#![tactic(auto)]

ghost use Rattle.std.specs.Prelude.{IfSome, OnOk};
ghost use Rattle.std.specs.Io.KnownBytes.{Appends};
ghost use Rattle.progress.specs.Listed.{told_of};

use anyhow::Context;
use flow::choice::Choice;
use paths::worklist::End;
use progress::portion::{Pace, Portion};
use progress::told::{Tabulation, tabulate_listing};
use std::alloc::{AllocError, Global};
use std::env;
use std::io::{Read, Write};
use text::input::take_listing;

fn portion_of(word: &str) -> Option<Portion> {
    Portion::new(word.parse().ok()?)
}

// What the arguments ask for, or what is wrong with them.
fn asked(words: &[String]) -> anyhow::Result<Tabulation> {
    let mut words = words.iter();
    let choice = words
        .next()
        .and_then(|word| word.as_str().parse().ok())
        .context("the first argument is the problem, unset or raw")?;
    let portion = words
        .next()
        .and_then(|word| portion_of(word.as_str()))
        .context("the second argument is the number of cells in a portion, 1 or more")?;
    let from = match (words.next(), words.next()) {
        (None, _) => Some(End::Oldest),
        (Some(word), None) => word.as_str().parse().ok(),
        _ => None,
    };
    let from = from.context("the third argument, if any, is oldest or newest; there is no fourth")?;
    Ok(Tabulation {
        choice,
        pace: Pace { portion, from },
    })
}

// Writes what is told of the tabulation of the listing that a reader gives.
fn run<I: Read + Drop, O: Write>(
    heap: Global,
    input: I,
    output: &mut O,
    tabulation: Tabulation,
) -> anyhow::Result<()>
    ensures { OnOk result (IfSome (I.remaining input) (λ t. Appends (O.contents output.old) (O.contents output.new)
        (told_of t tabulation.choice tabulation.pace.portion.size tabulation.pace.from))) }
{
    let bytes = take_listing(heap, input)?;
    let told = tabulate_listing(heap, bytes.as_slice(), tabulation)?;
    output.write_all(told.as_bytes())?;
    Ok(())
}

fn main(rt: HostRuntime) -> anyhow::Result<()> {
    let words: Vec<String> = env::args(&rt)?.skip(1).collect(rt.alloc())?;
    let tabulation = asked(words.as_slice())?;
    run(rt.alloc(), rt.stdin(), &mut rt.stdout(), tabulation)
}

#[cfg(test)]
mod tests {
    use super::*;
    use std::test::Fail;

    fn words_of(heap: Global, words: &[&str]) -> Result<Vec<String>, AllocError> {
        let mut all = Vec::new(heap);
        for word in words {
            all.push(String::from_str(heap, word)?)?;
        }
        Ok(all)
    }

    // Arguments that are wrong.
    #[test]
    fn wrong_arguments(rt: HostRuntime) -> Result<(), Fail> {
        let wrong: [&[&str]; 6] = [
            &[],
            &["Unset", "1"],
            &["unset"],
            &["unset", "0"],
            &["unset", "1", "eldest"],
            &["unset", "1", "oldest", "oldest"],
        ];
        for words in wrong {
            let words = words_of(rt.alloc(), words)?;
            assert!(rt; asked(words.as_slice()).is_err());
        }
        Ok(())
    }
}
