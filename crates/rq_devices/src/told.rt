//! A reader of whose reads is told.
ghost use Rattle.std.specs.Prelude.{◌≡◌};
ghost use Rattle.std.specs.Io.{ReadsAtMost};
ghost use Rattle.std.specs.Io.KnownBytes.{ReadConsumes};
ghost use Rattle.rq_devices.specs.Told.{told};

use rq_cast::{Progress, Seen};
use std::io;
use std::io::Read;

/// A reader of whose reads is told, before any cell is looked for among what they bring.
#[derive(Drop)]
pub struct Told<'t, R, P> {
    reader: R,
    progress: &'t mut P,
}

impl<'t, R, P> Told<'t, R, P> {
    /// Tells of the reads of a reader.
    pub fn new(reader: R, progress: &'t mut P) -> Told<'t, R, P>
        ensures { told result ≡ reader }
    {
        Told { reader, progress }
    }
}

impl<R: Read, P: Progress> Read for Told<'_, R, P> {
    ghost use Rattle.rq_devices.specs.Told.{told};

    ghost remaining = { λ t. R.remaining (told t) };

    fn read(&mut self, buf: &mut [u8]) -> io::Result<usize>
        ensures bound { ReadsAtMost result buf.new }
        ensures bytes { ReadConsumes (R.remaining (told self.old)) (R.remaining (told self.new)) result buf.new }
    {
        let result = self.reader.read(buf);
        if let Ok(n) = &result {
            self.progress.tell(*n, &Seen::default(), None);
        }
        result
    }
}
