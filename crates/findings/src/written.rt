// What is written at the front of a page that is lent.
ghost use Rattle.std.specs.Prelude.{◌++◌, [], ◌∷◌};
ghost use Rattle.listing.specs.Refusals.{refused_text};
ghost use Rattle.findings.specs.Written.{Fronts};

use listing::refused::Refused;
use page::write_refusal;
use records::fault::{Fault, Refusal};
use records::record::Record;

// How many bytes were written, and the memory back.
#[derive(Drop)]
pub struct Written {
    pub count: usize,
    pub memory: Vec<Record>,
}

// Writes a refusal in a line at the front of a page.
pub(crate) fn write_refused(
    memory: Vec<Record>,
    refused: Refused,
    page: &mut [u8],
) -> Result<Written, Refusal<Vec<Record>>>
    ensures { Fronts (refused_text refused.number refused.place ++ (10 ∷ [])) 0 memory page.old result page.new }
{
    match write_refusal(page, refused) {
        Some(count) => Ok(Written { count, memory }),
        None => Err(Refusal {
            fault: Fault::Full,
            back: memory,
        }),
    }
}
