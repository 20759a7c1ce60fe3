// A line of a text, with its LF.
ghost use Rattle.std.specs.Prelude.{◌≡◌, length};
ghost use Rattle.std.specs.Option.{option_map};
ghost use Rattle.grammar.specs.Words.{words as pieces};
ghost use Rattle.grammar.specs.Grammar.{body, spelled, cells, statement, header};
ghost use Rattle.grammar.specs.Spelling.{StatementSpelt, HeaderSpelt};

use crate::cursor::Words;
use crate::name::{Header, Name};
use crate::parse::Op;
use listing::statement::Statement;

// The end of a line.
pub const LF: u8 = b'\n';

// A line without its LF.
fn body_of(line: &[u8]) -> Option<&[u8]>
    ensures { option_map (λ x. x.now) result ≡ body line.now }
{
    match line {
        [body @ .., LF] => Some(body),
        _ => None,
    }
}

fn statement_in(words: &[u8]) -> Option<Statement<Name>>
    ensures { result ≡ spelled (pieces words.now) }
{
    let (name, rest) = Words::of(words).cut()?;
    Op::of(name)?.statement(rest)
}

fn header_in(words: &[u8]) -> Option<Header>
    ensures { result ≡ cells (pieces words.now) }
{
    let (b"cells", rest) = Words::of(words).cut()? else {
        return None;
    };
    let (globals, locals) = rest.two()?;
    Some(Header { globals, locals })
}

// The statement that a line spells.
pub fn statement_of(line: &[u8]) -> Option<Statement<Name>>
    ensures value { result ≡ statement line.now }
    ensures spelt { StatementSpelt line.now result }
{
    statement_in(body_of(line)?)
}

// The numbers of the line `cells G L`.
pub fn header_of(line: &[u8]) -> Option<Header>
    ensures value { result ≡ header line.now }
    ensures spelt { HeaderSpelt line.now result }
{
    header_in(body_of(line)?)
}
