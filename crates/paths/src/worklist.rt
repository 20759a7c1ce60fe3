// The ends of the row of the cells that wait, the oldest first.
ghost use Rattle.std.specs.Result.{result_ok};
ghost use Rattle.paths.specs.Ends.{Named};

use std::str::FromStr;

// The end of the row from which a cell is taken.
#[derive(Clone, Copy, PartialEq, Eq, Debug)]
pub enum End {
    Oldest,
    Newest,
}

// No end has the name.
#[derive(Clone, Copy, PartialEq, Eq, Debug)]
pub struct NoSuchEnd;

// The end of a name, `oldest` or `newest`.
impl FromStr for End {
    type Err = NoSuchEnd;

    ghost from_str_gives = { λ name end. Named name (result_ok end) };

    fn from_str(name: &str) -> Result<End, NoSuchEnd> {
        match name {
            "oldest" => Ok(End::Oldest),
            "newest" => Ok(End::Newest),
            _ => Err(NoSuchEnd),
        }
    }
}
