//! What is written beside its place.

use crate::keeping::{node_at, node_of};
use crate::system::System;
use std::alloc::AllocError;
use std::fs::File;
use std::io;
use std::io::ErrorKind;

/// What isn't in its place yet.
pub trait Beside {
    /// Puts it there.
    fn put(&self) -> io::Result<()>;

    /// Takes it away.
    fn remove(&self) -> io::Result<()>;

    /// Puts it in its place where it is whole. Where it isn't, or can't be put there, it is taken away.
    fn finish(&self, is_whole: bool) -> io::Result<()> {
        if !is_whole {
            return self.remove();
        }
        let put = self.put();
        if put.is_err() {
            let _ = self.remove();
        }
        put
    }
}

/// Where something is written that is put in a place when it is whole.
pub fn beside_of(rt: &HostRuntime, place: &str) -> Result<String, AllocError> {
    format!(in rt.alloc(); "{place}.rqcast")
}

/// A path where something is written, which is known as long as the words of the line are.
pub fn kept_path<'w>(
    system: System<'_, 'w>,
    path: Result<String, AllocError>,
) -> io::Result<&'w str> {
    let path = path?;
    let kept = system
        .beside
        .get_or_try_init(|| Ok::<String, AllocError>(path))?;
    Ok(kept.as_str())
}

/// Whether a path leads to a file that is open.
pub fn is_at(rt: &HostRuntime, path: &str, file: &File) -> io::Result<bool> {
    let metadata = file.metadata()?;
    Ok(node_at(rt, path) == Some(node_of(&metadata)))
}

/// Locks a file that this run has made. Where it can't be locked, other runs don't see that it is taken. One that was as
/// fast may have locked it for a moment, and taken it away.
pub fn lock_made(rt: &HostRuntime, path: &str, file: &File) -> io::Result<()> {
    let _ = file.lock();
    if is_at(rt, path, file)? {
        return Ok(());
    }
    Err(io::Error::from(ErrorKind::ResourceBusy))
}
