// The row of the cells that wait.
ghost use Rattle.std.specs.Prelude.{◌≡◌, ◌-◌, ◌<◌, ◌≤◌, false, length, IfSome, if◌then◌else◌, Some};
ghost use Rattle.paths.specs.declared.worklist.End.TheVariants.{Oldest, Newest};
ghost use Rattle.paths.specs.Does.{gives, refuses, Open, Closed, close_answer, close_after};
ghost use Rattle.table.specs.State.{inner, Moved, Found};
ghost use Rattle.table.specs.Worklist.{place_of, head_of, tail_of, taken_from, took};

use crate::state::Core;
use paths::worklist::End;

// What taking a cell at an end of the row asks: the cell's place, and the row's head and tail without it.
struct Taken {
    place: u32,
    head: u32,
    tail: u32,
}

// The place at an end of the row, and the row's head and tail without it.
fn at_end(end: End, head: u32, tail: u32) -> Taken
    requires { head < tail }
    ensures place { result.place ≡ place_of end head tail }
    ensures head { result.head ≡ head_of end head }
    ensures tail { result.tail ≡ tail_of end tail }
{
    match end {
        End::Oldest => Taken {
            place: head,
            head: head + 1,
            tail,
        },
        End::Newest => Taken {
            place: tail - 1,
            head,
            tail: tail - 1,
        },
    }
}

impl Core {
    // Whether a cell waits.
    pub(super) fn any_waits(&self) -> bool
        ensures answer { close_answer (inner self.now).waiting ≡ (if result then refuses 14 else gives 0) }
        ensures after { close_after (inner self.now).waiting (inner self.now) ≡ (if result then Open (inner self.now) else Closed (inner self.now)) }
        ensures ends { result ≡ false → self.now.head ≡ self.now.tail }
    {
        self.head < self.tail
    }

    // How many cells wait.
    pub(super) fn waiting(&self) -> u32
        ensures value { result ≡ length (inner self.now).waiting }
        ensures ends { result ≡ self.now.tail - self.now.head }
        ensures below { result ≤ self.now.found }
    {
        self.tail - self.head
    }

    // Takes the cell at an end of the row, if one waits.
    pub(super) fn take(&mut self, end: End) -> Option<u32>
        ensures value { result ≡ taken_from end (inner self.old).waiting }
        ensures after { inner self.new ≡ took end (inner self.old) }
        ensures moved { Moved self.old self.new }
        ensures found { IfSome result (λ c. Found self.old c) }
    {
        if self.head == self.tail {
            return None;
        }
        let Taken { place, head, tail } = at_end(end, self.head, self.tail);
        let cell = self.records[place as usize].slot;
        self.head = head;
        self.tail = tail;
        Some(cell)
    }
}
