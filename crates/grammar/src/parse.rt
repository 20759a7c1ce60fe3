// The words of a line as a statement.
ghost use Rattle.std.specs.Prelude.{◌≡◌, [], ◌∷◌, MatchOption};
ghost use Rattle.std.specs.Option.{option_map};
ghost use Rattle.grammar.specs.Words.{words};
ghost use Rattle.grammar.specs.Left.{left};
ghost use Rattle.grammar.specs.Grammar.{last, next, flat, named, operands};

use crate::cursor::Words;
use crate::name::Name;
use crate::words::{Operand, space};
use listing::numbers::{Point, Proc};
use listing::statement::Statement;

impl<'a> Words<'a> {
    pub(crate) fn of(line: &'a [u8]) -> Words<'a>
        ensures { left result ≡ words line.now }
    {
        Words { rest: Some(line) }
    }

    // The next word, and what is left after it.
    pub(crate) fn cut(self) -> Option<(&'a [u8], Words<'a>)>
        ensures { MatchOption result (left self.entry ≡ []) (λ p. left self.entry ≡ p.0.now ∷ left p.1) }
    {
        let line = self.rest?;
        match space(line) {
            Some(n) => Some((
                &line[..n],
                Words {
                    rest: Some(&line[n + 1..]),
                },
            )),
            None => Some((line, Words { rest: None })),
        }
    }

    // One operand, and nothing after it.
    pub(crate) fn one<T: Operand>(self) -> Option<T>
        ensures { result ≡ last T.reads (left self.entry) }
    {
        let (word, rest) = self.cut()?;
        match rest.cut() {
            None => T::read(word),
            Some(_) => None,
        }
    }

    pub(crate) fn two<T: Operand, U: Operand>(self) -> Option<(T, U)>
        ensures { result ≡ next T.reads (last U.reads) (left self.entry) }
    {
        let (word, rest) = self.cut()?;
        Some((T::read(word)?, rest.one()?))
    }

    pub(crate) fn three<T: Operand, U: Operand, V: Operand>(self) -> Option<(T, U, V)>
        ensures { result ≡ option_map flat (next T.reads (next U.reads (last V.reads)) (left self.entry)) }
    {
        let (word, rest) = self.cut()?;
        let first = T::read(word)?;
        let (second, third) = rest.two()?;
        Some((first, second, third))
    }
}

// The name of a statement.
#[derive(Clone, Copy)]
pub(crate) enum Op {
    Set,
    Move,
    Add,
    Read,
    Send,
    Goto,
    Test,
    Call,
    Ret,
    Trim,
}

impl Op {
    pub(crate) fn of(word: &[u8]) -> Option<Op>
        ensures { result ≡ named word.now }
    {
        match word {
            b"set" => Some(Op::Set),
            b"move" => Some(Op::Move),
            b"add" => Some(Op::Add),
            b"read" => Some(Op::Read),
            b"send" => Some(Op::Send),
            b"goto" => Some(Op::Goto),
            b"test" => Some(Op::Test),
            b"call" => Some(Op::Call),
            b"ret" => Some(Op::Ret),
            b"trim" => Some(Op::Trim),
            _ => None,
        }
    }

    // The statement of this name with its operands.
    pub(crate) fn statement(self, rest: Words) -> Option<Statement<Name>>
        ensures { result ≡ operands self (left rest.entry) }
    {
        match self {
            Op::Set => Some(Statement::Set { to: rest.one()? }),
            Op::Move => {
                let (to, from) = rest.two()?;
                Some(Statement::Move { to, from })
            }
            Op::Add => {
                let (to, left, right) = rest.three()?;
                Some(Statement::Add { to, left, right })
            }
            Op::Read => Some(Statement::Read { to: rest.one()? }),
            Op::Send => Some(Statement::Send { from: rest.one()? }),
            Op::Goto => Some(Statement::Goto {
                target: Point(rest.one()?),
            }),
            Op::Test => {
                let (from, target) = rest.two()?;
                Some(Statement::Test {
                    from,
                    target: Point(target),
                })
            }
            Op::Call => {
                let (to, callee, argument) = rest.three()?;
                Some(Statement::Call {
                    to,
                    callee: Proc(callee),
                    argument,
                })
            }
            Op::Ret => Some(Statement::Ret { from: rest.one()? }),
            Op::Trim => {
                let (to, from) = rest.two()?;
                Some(Statement::Trim { to, from })
            }
        }
    }
}
