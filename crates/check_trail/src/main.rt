// Tells a trail over the listing on standard input, move by move, and whether it is a call-matched path. The first argument is
// the problem, `unset` or `raw`; the others are the trail's words in hexadecimal.
#![tactic(auto)]

ghost use Rattle.std.specs.Prelude.{IfSome, OnOk};
ghost use Rattle.std.specs.Io.KnownBytes.{Appends};
ghost use Rattle.review.specs.Told.{told_of};

use anyhow::Context;
use flow::choice::Choice;
use review::told::review_listing;
use std::alloc::Global;
use std::env;
use std::io::{Read, Write};
use text::input::take_listing;

// The problem and the words that the arguments give.
fn asked(heap: Global, arguments: &[String]) -> anyhow::Result<(Choice, Vec<u32>)> {
    let mut arguments = arguments.iter();
    let choice = arguments
        .next()
        .and_then(|argument| argument.as_str().parse().ok())
        .context("the first argument is the problem, unset or raw")?;
    let mut words = Vec::new(heap);
    for argument in arguments {
        let word = u32::from_str_radix(argument.as_str(), 16).ok();
        words.push(word.context(
            "an argument behind the first is no word of 32 bits in hexadecimal",
        )?)?;
    }
    Ok((choice, words))
}

// Writes what is told of a trail over the listing that a reader gives.
fn run<I: Read + Drop, O: Write>(
    heap: Global,
    input: I,
    output: &mut O,
    choice: Choice,
    words: &[u32],
) -> anyhow::Result<()>
    ensures { OnOk result (IfSome (I.remaining input) (λ t. Appends (O.contents output.old) (O.contents output.new) (told_of t choice words.now))) }
{
    let bytes = take_listing(heap, input)?;
    let told = review_listing(heap, bytes.as_slice(), choice, words)?;
    output.write_all(told.as_bytes())?;
    Ok(())
}

fn main(rt: HostRuntime) -> anyhow::Result<()> {
    let arguments: Vec<String> = env::args(&rt)?.skip(1).collect(rt.alloc())?;
    let (choice, words) = asked(rt.alloc(), arguments.as_slice())?;
    run(
        rt.alloc(),
        rt.stdin(),
        &mut rt.stdout(),
        choice,
        words.as_slice(),
    )
}

#[cfg(test)]
mod tests {
    use super::*;
    use std::test::Fail;

    // The first argument is the problem, each other a word in hexadecimal.
    #[test]
    fn arguments(rt: HostRuntime) -> Result<(), Fail> {
        let given: [(&[&str], Option<usize>); 6] = [
            (&[], None),
            (&["Unset", "20000000"], None),
            (&["unset", "0x2000"], None),
            (&["unset", "20000000", "100000000"], None),
            (&["raw", "20000000", ""], None),
            (&["raw", "20000000", "40082000"], Some(2)),
        ];
        for (words, count) in given {
            let mut arguments = Vec::new(rt.alloc());
            for word in words {
                arguments.push(String::from_str(rt.alloc(), word)?)?;
            }
            let asked = asked(rt.alloc(), arguments.as_slice()).ok();
            assert_eq!(rt; asked.map(|(_, words)| words.len()), count);
        }
        Ok(())
    }
}
