//! Cells that are dealt to shards as they are written.
use crate::sharing::{ID_END, share_of};
use std::io;
use std::io::{ErrorKind, Write};

/// Shards into which cells are written. A call begins a cell, whose id says which shard it goes to, and what that doesn't
/// take of it goes there by the next ones.
#[derive(Drop)]
pub struct Dealer<W> {
    shards: Vec<W>,
    // Into which shard the cell goes that is begun, and how many bytes of it aren't written yet.
    current: usize,
    rest: usize,
}

impl<W> Dealer<W> {
    ghost use Rattle.std.specs.Prelude.{◌≡◌, length, IfOk, OnErr};
    ghost use Rattle.rq_shards.specs.Dealing.{IsNext, IsShare};

    /// Deals cells to these.
    pub fn new(shards: Vec<W>) -> Dealer<W>
        ensures shards { result.shards ≡ shards }
        ensures none { result.rest ≡ 0 }
    {
        Dealer {
            shards,
            current: 0,
            rest: 0,
        }
    }

    /// All of them.
    pub fn shards(&self) -> &[W]
        ensures { result.now ≡ self.now.shards.items }
    {
        self.shards.as_slice()
    }

    // To which of them a cell goes.
    fn share(&self, cell: &[u8]) -> io::Result<usize>
        ensures { IfOk result (IsShare (length self.now.shards.items) cell.now) }
    {
        let count = self.shards.len();
        if cell.len() < ID_END || count == 0 || count > 255 {
            return Err(io::Error::from(ErrorKind::InvalidInput));
        }
        Ok(usize::from(share_of(cell, count as u8)))
    }

    // To which of them bytes go, and how many are left of their cell with them.
    fn next(&self, bytes: &[u8]) -> io::Result<(usize, usize)>
        ensures next { IfOk result (λ r. IsNext self.now bytes.now r.0 r.1) }
        ensures none { OnErr result (self.now.rest ≡ 0) }
    {
        if self.rest > 0 {
            return Ok((self.current, self.rest));
        }
        Ok((self.share(bytes)?, bytes.len()))
    }
}

impl<W: Write> Dealer<W> {
    ghost use Rattle.std.specs.Prelude.{◌≡◌, IfOk, OnErr};
    ghost use Rattle.std.specs.Io.{WritesAtMost};
    ghost use Rattle.rq_shards.specs.Dealing.{Deals, KeepTheirs};

    /// Writes bytes into their shard, and answers how many of them it took. A call that fails writes none, and the next one
    /// begins a cell. Bytes that are too few for one are refused, and so are more than 255 shards.
    pub fn deal(&mut self, bytes: &[u8]) -> io::Result<usize>
        ensures bound { WritesAtMost result bytes.now }
        ensures deals { IfOk result (Deals W.contents self.old self.new bytes.now) }
        ensures kept { OnErr result (KeepTheirs W.contents self.old self.new) }
        ensures anew { OnErr result (self.new.rest ≡ 0) }
    {
        let (current, whole) = self.next(bytes)?;
        if current >= self.shards.len() {
            self.rest = 0;
            return Err(io::Error::from(ErrorKind::InvalidInput));
        }
        let end = bytes.len().min(whole);
        match self.shards[current].write(&bytes[..end]) {
            Ok(n) => {
                self.current = current;
                self.rest = whole.saturating_sub(n);
                Ok(n)
            }
            Err(error) => {
                self.rest = 0;
                Err(error)
            }
        }
    }
}
