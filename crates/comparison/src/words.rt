// A row of calls of a table, for the programs that compare.
ghost use Rattle.std.specs.Prelude.{◌≡◌, ◌≤◌, length, drop};

use crate::copying::copy_front;
use crate::run::tabulated;
use std::alloc::Global;

// Performs a row of calls of a table of a listing and a relation, and writes what each gave and every record at the end. Gives how many words
// it took; 0 where the listing is refused, the relation has not its length, it does not fit or memory is wanting.
#[unsafe(no_mangle)]
pub extern "C" fn tabulate(
    alloc: Global,
    listing: &[u8],
    relation: &[u8],
    facts: u8,
    run: &[u32],
    out: &mut [u32],
) -> usize
    ensures within { result ≤ length out.new }
    ensures kept { result ≡ 0 → out.new ≡ out.old }
    ensures rest { drop result out.new ≡ drop result out.old }
{
    match tabulated(alloc, listing, relation, facts, run) {
        Some(words) => copy_front(words.as_slice(), out),
        None => 0,
    }
}
