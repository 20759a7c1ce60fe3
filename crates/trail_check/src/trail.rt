// The check of a whole trail.
ghost use Rattle.std.specs.Prelude.{◌≡◌, ◌+◌, ◌<◌, ◌≤◌, length, IfSome};
ghost use Rattle.paths.specs.Check.{move_on};
ghost use Rattle.paths.specs.Checked.{lead, check_no, Verdict};
ghost use Rattle.paths.specs.Handing.{handed_by};
ghost use Rattle.stack.specs.Stack.{Free};
ghost use Rattle.trail_check.specs.Handing.{told, open_in, Moved, stands};

use crate::fault::Fault;
use crate::rules::{Place, begins, enters, passes, returns, steps};
use flow::interface::Problem;
use listing::numbers::Point;
use listing::program::Program;
use moves::moves::{Kind, Move};
use paths::analysis::Analysis;
use stack::{pop, push};

// A path as far as it has been walked: where it stands, if it has begun, and the points of the calls that are open, which are the
// front of memory that the caller lends.
#[derive(Drop)]
struct Walk<'a> {
    at: Option<Place>,
    calls: &'a mut [Point],
    height: usize,
}

impl<'a> Walk<'a> {
    // The walk after a word, if that is the word of a lawful move from where the path stands.
    fn follow<P: Program, Q: Problem>(self, on: &Analysis<P, Q>, word: u32) -> Option<Walk<'a>>
        requires { self.height < length self.calls.now }
        ensures leads { Moved (lead (handed_by P.Program Q.Problem on.now) (stands self.entry) word) result }
        ensures within { IfSome result (λ w. w.height ≤ self.entry.height + 1) }
        ensures room { IfSome result (λ w. length w.calls.now ≡ length self.entry.calls.now) }
    {
        let Move { kind, point, fact } = Move::try_from(word).ok()?;
        let to = Place { point, fact };
        match self.at {
            Some(from) => self.go_on(on, kind, from, to),
            None if kind == Kind::Start => Some(Walk {
                at: Some(begins(on, to)?),
                height: 0,
                ..self
            }),
            None => None,
        }
    }

    // The walk after a move from a place.
    fn go_on<P: Program, Q: Problem>(
        self,
        on: &Analysis<P, Q>,
        kind: Kind,
        from: Place,
        to: Place,
    ) -> Option<Walk<'a>>
        requires { self.height < length self.calls.now }
        ensures leads { let h = handed_by P.Program Q.Problem on.now in
            Moved (move_on h.graph h.rule h.points h.facts kind (open_in self.entry.calls.now self.entry.height) from.point.0 from.fact.0 to.point.0 to.fact.0) result }
        ensures within { IfSome result (λ w. w.height ≤ self.entry.height + 1) }
        ensures room { IfSome result (λ w. length w.calls.now ≡ length self.entry.calls.now) }
    {
        let Walk {
            calls,
            mut height,
            ..
        } = self;
        let at = match kind {
            Kind::Start => return None,
            Kind::Step => steps(on, from, to)?,
            Kind::Past => passes(on, from, to)?,
            Kind::Call => {
                height = push(calls, height, from.point).unwrap();
                enters(on, from, to)?
            }
            Kind::Return => {
                let (call, rest) = pop(calls, height)?;
                height = rest;
                returns(on, call, from, to)?
            }
        };
        Some(Walk {
            at: Some(at),
            calls,
            height,
        })
    }
}

// Whether words are those of a call-matched path, from any start. The memory has room for the calls that are open at once; what
// it holds afterwards is free.
pub fn check_trail<P: Program, Q: Problem>(
    on: &Analysis<P, Q>,
    words: &[u32],
    calls: &mut [Point],
) -> Result<(), Fault>
    ensures value { told result ≡ check_no (handed_by P.Program Q.Problem on.now) words.now (length calls.old) }
    ensures law { Verdict (handed_by P.Program Q.Problem on.now) words.now (length calls.old) (told result) }
    ensures calls { Free calls.old calls.new }
{
    first_stray(on, words, calls)
}

// The same; apart, since the law follows from the value, and so is shown once and not at each return.
fn first_stray<P: Program, Q: Problem>(
    on: &Analysis<P, Q>,
    words: &[u32],
    calls: &mut [Point],
) -> Result<(), Fault>
    ensures { told result ≡ check_no (handed_by P.Program Q.Problem on.now) words.now (length calls.old) }
{
    if calls.len() < words.len() {
        return Err(Fault::Room);
    }
    if words.is_empty() {
        return Err(Fault::Stray { place: 0 });
    }
    let mut walk = Walk {
        at: None,
        calls,
        height: 0,
    };
    for (place, word) in words.iter().enumerate() {
        walk = walk.follow(on, *word).ok_or(Fault::Stray { place })?;
    }
    Ok(())
}
