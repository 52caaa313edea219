// What is put into lent memory.
ghost use Rattle.std.specs.Prelude.{◌+◌, ◌≤◌, length};
ghost use Rattle.shape.specs.Memory.{Put};

use shape::memory::copy;

// The elements into the memory, from `at` on, and where they end. It is `put` of `shape` for this crate: a
// public one may ask nothing of its caller, and a test in it costs the strips 3 in 100.
pub(crate) fn put<T: Copy>(out: &mut [T], at: usize, xs: &[T]) -> usize
    requires { at + length xs.now ≤ length out.old }
    ensures { Put out.old out.new at xs.now result }
{
    let end = at + xs.len();
    copy(xs, &mut out[at..end]);
    end
}
