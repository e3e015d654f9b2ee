//! What is told of a part while it is sent, and when its cells leave.
ghost use Rattle.std.specs.Prelude.{◌≡◌, List, Option, None};
ghost use Rattle.rq_cast.specs.Calls.{Call, Tells, one_call};

use crate::sending::Sender;

/// What is told of each part and of each call that begins a cell, and waits before each cell, so that no more are
/// sent in a time than are wanted.
pub trait Pace {
    /// Which calls it was told of, in their order, where that is known.
    ghost calls: { Self → Option (List Call) } = { λ _. None };

    /// Called before the first cell of each part, with its sender.
    fn begin_part(&mut self, sender: &Sender<'_>)
        ensures { calls self.new ≡ calls self.old };

    /// Waits until so many bytes may be sent.
    fn wait(&mut self, bytes: usize)
        ensures { calls self.new ≡ calls self.old };

    /// Called behind each call that begins a cell: with the cell, and whether the call lost it.
    fn tell_call(&mut self, cell: &[u8], is_lost: bool)
        ensures { Tells (calls self.old) (calls self.new) (one_call cell.now is_lost) };
}
