// A stack in the front of a slice, with its height in a count beside it. The slice and the count stay apart, since entries are
// copied in and out of memory that the caller lends: nothing is allocated, and what the memory holds afterwards is free.
#![tactic(auto)]

ghost use Rattle.stack.specs.Stack.{Pushed, Popped};

// No room for another entry.
#[derive(Clone, Copy, PartialEq, Eq, Debug)]
pub struct Full;

// Puts an entry on top of so many, and gives their new count; where the slice is full, nothing changes.
pub fn push<T: Copy>(slots: &mut [T], count: usize, x: T) -> Result<usize, Full>
    ensures { Pushed slots.old count x result slots.new }
{
    if count >= slots.len() {
        return Err(Full);
    }
    slots[count] = x;
    Ok(count + 1)
}

// The top of so many entries, and the count of those below it; none where there is none.
pub fn pop<T: Copy>(slots: &[T], count: usize) -> Option<(T, usize)>
    ensures { Popped slots.now count result }
{
    let rest = count.checked_sub(1)?;
    let top = *slots.get(rest)?;
    Some((top, rest))
}
