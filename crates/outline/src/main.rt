// Tells the counts and the procedures of the listing on standard input, or why it is refused.
#![tactic(auto)]

ghost use Rattle.std.specs.Prelude.{IfSome, OnOk};
ghost use Rattle.std.specs.Io.KnownBytes.{Appends};
ghost use Rattle.overview.specs.Outlined.{outlined};

use overview::outline::outline;
use std::alloc::Global;
use std::io::{Read, Write};
use text::input::take_listing;

// Writes the outline of the listing that a reader gives.
fn run<I: Read + Drop, O: Write>(heap: Global, input: I, output: &mut O) -> anyhow::Result<()>
    ensures { OnOk result (IfSome (I.remaining input) (λ t. Appends (O.contents output.old) (O.contents output.new) (outlined t))) }
{
    let bytes = take_listing(heap, input)?;
    let told = outline(heap, bytes.as_slice())?;
    output.write_all(told.as_bytes())?;
    Ok(())
}

fn main(rt: HostRuntime) -> anyhow::Result<()> {
    run(rt.alloc(), rt.stdin(), &mut rt.stdout())
}
