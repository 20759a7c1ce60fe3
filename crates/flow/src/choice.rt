// The problems about cells, by name.
ghost use Rattle.std.specs.Prelude.{Some, codes};
ghost use Rattle.std.specs.Result.{result_ok};
ghost use Rattle.flow.specs.Choices.{Named};

use std::error::Error;
use std::fmt;
use std::str::FromStr;

#[derive(Clone, Copy, PartialEq, Eq, Debug)]
pub enum Choice {
    Unset,
    Raw,
}

// No problem has the name.
#[derive(Clone, Copy, PartialEq, Eq, Debug)]
pub struct NoSuchProblem;

// The problem of a name, `unset` or `raw`.
impl FromStr for Choice {
    type Err = NoSuchProblem;

    ghost from_str_gives = { λ name problem. Named name (result_ok problem) };

    fn from_str(name: &str) -> Result<Choice, NoSuchProblem> {
        match name {
            "unset" => Ok(Choice::Unset),
            "raw" => Ok(Choice::Raw),
            _ => Err(NoSuchProblem),
        }
    }
}

impl fmt::Display for NoSuchProblem {
    ghost output = { λ _. Some (codes "no such problem") };

    fn fmt<W: fmt::Write>(&self, f: &mut fmt::Formatter<W>) -> fmt::Result {
        f.write_str("no such problem")
    }
}

impl Error for NoSuchProblem {}
