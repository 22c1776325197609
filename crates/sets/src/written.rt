// Values written one after another into lent ones.
ghost use Rattle.sets.specs.Writing.{Room, WrittenAt};

// Writes the values from `at` on, and returns the position after them.
pub fn put<T: Copy>(out: &mut [T], at: usize, values: &[T]) -> usize
    requires { Room values.now out.old at }
    ensures { WrittenAt values.now out.old at out.new result }
{
    let end = at + values.len();
    out[at..end].copy_from_slice(values);
    end
}
