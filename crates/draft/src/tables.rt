// A table of what is told at each place, if anything is.
ghost use Rattle.std.specs.Prelude.{◌≡◌};
ghost use Rattle.draft.specs.Told.{told};

// What a table tells at a place; nothing past its end.
pub(crate) fn told<T: Copy>(table: &[Option<T>], place: u16) -> Option<T>
    ensures { result ≡ told table.now place }
{
    table.get(usize::from(place)).copied().flatten()
}
