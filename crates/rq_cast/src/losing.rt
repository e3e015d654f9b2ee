//! Which calls lose a cell.
ghost use Rattle.std.specs.Prelude.{◌≡◌};
ghost use Rattle.rq_cast.specs.Losing.{is_lost, loses};

use std::io;
use std::io::ErrorKind;

// The number of Linux's ENOBUFS, which has no kind.
const NO_ROOM: i32 = 105;

/// Whether a call failed as it does that loses a datagram and no more: nobody listens there, no way leads
/// there, the network is down, or it has no room now. [`send_stream`](crate::send_stream) goes on behind it.
pub fn loses(error: &io::Error) -> bool
    ensures { result ≡ loses error.now }
{
    let is_of_network = matches!(
        error.kind(),
        ErrorKind::ConnectionRefused
            | ErrorKind::NetworkUnreachable
            | ErrorKind::HostUnreachable
            | ErrorKind::NetworkDown
    );
    is_of_network || error.raw_os_error() == Some(NO_ROOM)
}

/// Whether a call that should have begun a cell lost it.
pub(crate) fn is_lost(begun: &io::Result<usize>) -> bool
    ensures { result ≡ is_lost begun.now }
{
    match begun {
        Ok(_) => false,
        Err(error) => loses(error),
    }
}
