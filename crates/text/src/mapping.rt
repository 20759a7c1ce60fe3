// A statement over other cells.
ghost use Rattle.std.specs.Prelude.{◌≡◌, Option};
ghost use Rattle.text.specs.Mapped.{try_mapped};

use listing::statement::Statement;

// The same statement over the cells that a function gives, or none where it gives none.
pub(crate) fn try_map<C: Copy, D: Copy, F: Fn(C) -> Option<D>>(
    s: Statement<C>,
    cell: F,
) -> Option<Statement<D>>
    requires { F.IsAlwaysCallable cell }
    ensures { (f : C → Option D) → ((c : C) (d : Option D) → F.post cell c d → d ≡ f c) → result ≡ try_mapped f s }
{
    match s {
        Statement::Set { to } => Some(Statement::Set { to: cell(to)? }),
        Statement::Move { to, from } => Some(Statement::Move {
            to: cell(to)?,
            from: cell(from)?,
        }),
        Statement::Add { to, left, right } => Some(Statement::Add {
            to: cell(to)?,
            left: cell(left)?,
            right: cell(right)?,
        }),
        Statement::Read { to } => Some(Statement::Read { to: cell(to)? }),
        Statement::Send { from } => Some(Statement::Send { from: cell(from)? }),
        Statement::Goto { target } => Some(Statement::Goto { target }),
        Statement::Test { from, target } => Some(Statement::Test {
            from: cell(from)?,
            target,
        }),
        Statement::Call {
            to,
            callee,
            argument,
        } => Some(Statement::Call {
            to: cell(to)?,
            callee,
            argument: cell(argument)?,
        }),
        Statement::Ret { from } => Some(Statement::Ret { from: cell(from)? }),
        Statement::Trim { to, from } => Some(Statement::Trim {
            to: cell(to)?,
            from: cell(from)?,
        }),
    }
}
