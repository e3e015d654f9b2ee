//! A file in which what is read is kept.
ghost use Rattle.std.specs.Io.{ReadsAtMost};

use crate::system::System;
use std::fs::{File, Metadata, OpenOptions, TryLockError};
use std::io::{ErrorKind, Read, Write};
use std::os::unix::fs::{MetadataExt, OpenOptionsExt};
use std::path::AsPath;
use std::{fs, io};

// Who may read and write a new file: what others sent is its owner's alone.
const RIGHTS: u32 = 0o600;

/// Which file it is, whatever its path.
pub type Node = (u64, u64);

/// What earlier runs kept, and where this one keeps what it reads.
#[derive(Drop)]
pub struct Keeping<'c, 'w> {
    system: System<'c, 'w>,
    file: File,
    path: &'w str,
    // Whether all is read that earlier runs kept.
    is_read: bool,
}

/// The file that these metadata are of.
pub fn node_of(metadata: &Metadata) -> Node {
    (metadata.dev(), metadata.ino())
}

/// The file that a path leads to, where there is one.
pub fn node_at<P: AsPath>(rt: &HostRuntime, path: P) -> Option<Node> {
    match fs::metadata(rt, path) {
        Ok(metadata) => Some(node_of(&metadata)),
        Err(_) => None,
    }
}

// Opens a file, or makes it, where no other run has it.
fn open_file(rt: &HostRuntime, path: &str) -> io::Result<(File, Node)> {
    if matches!(fs::metadata(rt, path), Ok(metadata) if !metadata.is_file() && !metadata.is_dir()) {
        return Err(io::Error::from(ErrorKind::InvalidInput));
    }
    let mut options = OpenOptions::new();
    options.read(true).append(true).create(true).mode(RIGHTS);
    let file = options.open(rt, path)?;
    if matches!(file.try_lock(), Err(TryLockError::WouldBlock)) {
        return Err(io::Error::from(ErrorKind::ResourceBusy));
    }
    let node = node_of(&file.metadata()?);
    Ok((file, node))
}

impl<'c, 'w> Keeping<'c, 'w> {
    /// Opens the file, which is there from now on.
    pub fn open(system: System<'c, 'w>, path: &'w str) -> io::Result<Keeping<'c, 'w>> {
        let opened = open_file(system.rt, path);
        let (file, node) = system.noted("opening", path, opened)?;
        system.kept.set(Some(node));
        Ok(Keeping {
            system,
            file,
            path,
            is_read: false,
        })
    }

    /// Reads what earlier runs kept: none where all of it is read.
    pub fn read(&mut self, buf: &mut [u8]) -> io::Result<usize>
        ensures { ReadsAtMost result buf.new }
    {
        if self.is_read || buf.is_empty() {
            return Ok(0);
        }
        let result = self.file.read(buf);
        if matches!(result, Ok(0)) {
            self.is_read = true;
        }
        self.system.noted("reading", self.path, result)
    }

    /// Keeps what was read.
    pub fn keep(&mut self, bytes: &[u8]) -> io::Result<()> {
        let result = self.file.write_all(bytes);
        self.system.noted("writing to", self.path, result)
    }
}

/// Takes the file away, where it is still the one that was opened.
pub fn forget<'w>(system: System<'_, 'w>, path: &'w str) -> io::Result<()> {
    if node_at(system.rt, path) != system.kept.get() {
        return Ok(());
    }
    system.noted("removing", path, fs::remove_file(system.rt, path))
}
