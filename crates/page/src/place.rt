// A text at the front of a part of a page.
ghost use Rattle.page.specs.Writes.{Writes};

// Writes a text at the front of a part, and gives how many bytes it took; none where it does not fit, and then nothing is written.
pub(crate) fn write_front(part: &mut [u8], text: &str) -> Option<usize>
    ensures { Writes text.now part.old result part.new }
{
    let count = text.len();
    // Tried with `part.get_mut(..count)?`: the check then has no fact of what the part holds at the end, written or not.
    if count <= part.len() {
        part[..count].copy_from_slice(text.as_bytes());
        Some(count)
    } else {
        None
    }
}
