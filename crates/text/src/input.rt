// A listing as it is delivered.
ghost use Rattle.std.specs.Prelude.{◌≡◌, take, IfOk, IfSome};
ghost use Rattle.text.specs.Reading.{reading};

use crate::survey::MOST_BYTES;
use std::alloc::Global;
use std::io;
use std::io::Read;

// One byte more than a listing may have: enough to see that it is too long.
const LIMIT: u64 = MOST_BYTES as u64 + 1;

// Takes a listing from a reader; of one that is too long no more than shows it, which is refused as the whole would be.
pub fn take_listing<R: Read + Drop>(heap: Global, reader: R) -> io::Result<Vec<u8>>
    ensures bytes { IfOk result (λ v. IfSome (R.remaining reader) (λ t. v.items ≡ take 32769 t)) }
    ensures same { IfOk result (λ v. IfSome (R.remaining reader) (λ t. reading v.items ≡ reading t)) }
{
    let mut bytes = Vec::new(heap);
    reader.take(LIMIT).read_to_end(&mut bytes)?;
    Ok(bytes)
}
