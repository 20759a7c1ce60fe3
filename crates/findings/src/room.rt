// How much a report may take.
ghost use Rattle.std.specs.Prelude.{◌≡◌};
ghost use Rattle.findings.specs.Rooms.{sheet_room};

// So many records for the table, and a page of so many bytes.
#[derive(Clone, Copy)]
pub struct Room {
    pub records: usize,
    pub page: usize,
}

impl Room {
    // The room for each report of a sheet.
    #[tactic(auto, unfolding(crate::specs::Rooms::sheet_room))]
    pub fn of_sheet() -> Room
        ensures { result ≡ sheet_room }
    {
        Room {
            records: 3000,
            page: 16384,
        }
    }
}
