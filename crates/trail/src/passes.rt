// The two passes over a trail.
ghost use Rattle.std.specs.Prelude.{◌≡◌, ◌≤◌, length, true};
ghost use Rattle.moves.specs.Words.{encoded, fits};
ghost use Rattle.paths.specs.Words.{deep_of};
ghost use Rattle.table.specs.State.{state};
ghost use Rattle.trail.specs.Walk.{measured, words_of, Found};

use crate::walk::Walk;
use moves::moves::Move;
use records::record::Record;
use table::state::ClosedTable;

// The number of a trail's moves, if so many words and the memory for calls have room for them. No more moves are walked than there are words.
#[tactic(auto, using(crate::proofs::Walking::measuring))]
pub(crate) fn measure(
    table: &ClosedTable,
    cell: u32,
    room: usize,
    calls: &mut [Record],
) -> Option<usize>
    requires { Found (state table.now) cell }
    ensures { result ≡ measured (state table.now) cell room (length calls.old) }
{
    let mut walk = Walk { cell, height: 0 };
    for count in 0..room {
        let Ok(stride) = walk.back(table, calls) else {
            return None;
        };
        let Some(before) = stride.before else {
            return Some(count + 1);
        };
        walk = before;
    }
    None
}

// The word of a move that has one.
fn word_of(arrives: Move) -> u32
    requires { fits arrives ≡ true }
    ensures { result ≡ encoded arrives }
{
    u32::try_from(arrives).unwrap()
}

// Writes the words of a trail, the last move first, over as many.
#[tactic(auto, using(crate::proofs::Walking::writing_words))]
pub(crate) fn write(table: &ClosedTable, cell: u32, words: &mut [u32], calls: &mut [Record])
    requires found { Found (state table.now) cell }
    requires count { length words.old ≡ length (words_of (state table.now) cell) }
    requires room { deep_of (state table.now) cell ≤ length calls.old }
    ensures { words.new ≡ words_of (state table.now) cell }
{
    let mut left = Some(Walk { cell, height: 0 });
    for place in (0..words.len()).rev() {
        let stride = left.unwrap().back(table, calls).unwrap();
        words[place] = word_of(stride.arrives);
        left = stride.before;
    }
}
