// Copying to the front of memory that is lent.
ghost use Rattle.std.specs.Prelude.{◌≡◌, ◌≤◌, length, drop};
ghost use Rattle.comparison.specs.Copied.{Copied};

// Copies items to the front, and gives how many there are; 0 where they do not fit, and then all stays.
pub(crate) fn copy_front<T: Copy>(items: &[T], out: &mut [T]) -> usize
    ensures copied { Copied items.now out.old result out.new }
    ensures fits { length items.now ≤ length out.old → result ≡ length items.now }
    ensures kept { result ≡ 0 → out.new ≡ out.old }
    ensures rest { drop result out.new ≡ drop result out.old }
{
    let count = items.len();
    if count <= out.len() {
        out[..count].copy_from_slice(items);
        count
    } else {
        0
    }
}
