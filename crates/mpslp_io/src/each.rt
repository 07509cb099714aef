//! A loop over entries that are printed one after another.

ghost use Rattle.std.specs.Prelude.{◌≡◌, Bool};
ghost use Rattle.mpslp_io.specs.EachCall.{AcceptsEach, CallsEach};

use crate::devices::Sink;
use crate::output::Output;

/// An output that may fail.
pub trait CanFail {
    /// Whether it has failed.
    ghost failed: { Self → Bool };

    /// Whether it has failed.
    fn has_failed(&self) -> bool
        ensures { result ≡ failed self.now };
}

impl<W: Sink> CanFail for Output<'_, W> {
    ghost failed = { λ o. o.buffer.now.has_failed };

    fn has_failed(&self) -> bool {
        Output::has_failed(self)
    }
}

/// Calls `put` with each number below `count`, in rising order, and with the output. Ends before the first call for which the
/// output has failed, so that nothing more is put then.
pub fn put_each<T: CanFail, F: Fn(usize, &mut T)>(count: usize, output: &mut T, put: F)
    requires { AcceptsEach F.Fn put count }
    ensures { CallsEach F.Fn put T.failed count output.old output.new }
{
    for i in 0..count {
        if output.has_failed() {
            return;
        }
        put(i, output);
    }
}
