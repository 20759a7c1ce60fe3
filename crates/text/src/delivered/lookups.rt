// Looking statements up by their places.
ghost use Rattle.std.specs.Prelude.{◌≡◌, is_some};
ghost use Rattle.std.specs.List.{slice_get};
ghost use Rattle.text.specs.Reading.{written, flow_of, owned_of, renumbered};

use crate::cells::cell;
use crate::delivered::Delivered;
use crate::mapping::try_map;
use crate::scan::line_at;
use draft::interface::Draft;
use grammar::line::statement_of;
use grammar::name::Name;
use listing::control::Control;
use listing::numbers::{Cell, Point};
use listing::statement::Statement;

impl Delivered<'_> {
    // The statement at a point, out of the file's own bytes.
    pub(crate) fn statement(&self, n: Point) -> Option<Statement<Name>>
        ensures { result ≡ slice_get (written self.now.bytes.now) n.0 }
    {
        if n.0 >= self.points {
            return None;
        }
        let start = usize::from(self.starts[usize::from(n.0) + 1]);
        statement_of(line_at(self.bytes, start))
    }

    // The statement over numbered cells, or none where a cell is not the program's.
    pub(crate) fn numbered(&self, s: Statement<Name>) -> Option<Statement<Cell>>
        ensures { result ≡ renumbered self.now.bytes.now s }
    {
        let cells = self.cells;
        try_map(s, |name| cell(cells, name))
    }
}

impl Draft for Delivered<'_> {
    ghost flow = { λ d. flow_of d.bytes.now };

    ghost owned = { λ d. owned_of d.bytes.now };

    ghost few = { λ d. d.short };

    fn points(&self) -> u16 {
        self.points
    }

    fn control(&self, n: Point) -> Option<Control> {
        self.statement(n).map(|s| s.control())
    }

    fn owns_cells(&self, n: Point) -> bool {
        let owned = |s: Statement<Name>| -> bool
            ensures { result ≡ is_some (renumbered self.entry.now.bytes.now s) }
        { self.numbered(s).is_some() };
        self.statement(n).is_none_or(owned)
    }
}
