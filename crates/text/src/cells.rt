// The cells that names number.
ghost use Rattle.std.specs.Prelude.{◌≡◌};
ghost use Rattle.text.specs.Cells.{cell_of};
ghost use Rattle.text.specs.Survey.{Ranged};

use grammar::name::{Header, Name};
use listing::cells::CellCounts;
use listing::numbers::Cell;

// The counts of a header, or none where they are out of range.
pub(crate) fn counts_in(header: Header) -> Option<CellCounts>
    ensures { Ranged header result }
{
    let globals = u8::try_from(header.globals).ok()?;
    let locals = u8::try_from(header.locals).ok()?;
    CellCounts::new(globals, locals).ok()
}

// The cell of a name, or none where it is not the program's.
pub(crate) fn cell(counts: CellCounts, name: Name) -> Option<Cell>
    ensures { result ≡ cell_of counts.globals counts.locals name }
{
    match name {
        Name::Global(i) if i < u16::from(counts.globals()) => Some(Cell(i as u8)),
        Name::Local(i) if i < u16::from(counts.locals()) => Some(Cell(counts.globals() + i as u8)),
        _ => None,
    }
}
