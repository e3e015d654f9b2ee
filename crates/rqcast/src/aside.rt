//! A file that is written beside its place.

use crate::beside::{Beside, beside_of, kept_path, lock_made};
use crate::system::System;
use rq_cells::STREAM_LENGTH;
use std::alloc::AllocError;
use std::fmt::Write;
use std::fs::{File, OpenOptions, Permissions, TryLockError};
use std::io::ErrorKind;
use std::os::unix::fs::{OpenOptionsExt, PermissionsExt};
use std::path::PathBuf;
use std::{fs, io};

// Who may read, write and run a file. The bits above lend the rights of its owner, and not to what others sent.
const RIGHTS: u32 = 0o777;

// Those of a new file, before umask, and those until it has another's.
const NEW: u32 = 0o666;

const OWN: u32 = 0o600;

/// A file that isn't in its place yet.
#[derive(Drop)]
pub struct Aside<'c, 'w> {
    system: System<'c, 'w>,
    file: File,
    place: PathBuf,
    // Where it stands until it is whole: always there, so that a run replaces what one left that was killed.
    path: &'w str,
}

/// The file that a link leads to. The path itself, where it is no link, or one that leads nowhere.
pub fn place_of(rt: &HostRuntime, path: &str) -> io::Result<PathBuf> {
    match fs::symlink_metadata(rt, path) {
        Ok(metadata) if metadata.is_symlink() => match fs::canonicalize(rt, path) {
            Err(error) if error.kind() == ErrorKind::NotFound => {}
            place => return place,
        },
        _ => {}
    }
    Ok(PathBuf::from_str(rt.alloc(), path)?)
}

/// Where one is written that is put in a folder.
pub fn inside_of(rt: &HostRuntime, folder: &str) -> Result<String, AllocError> {
    let alloc = rt.alloc();
    format!(in alloc; "{folder}/receiving.rqcast")
}

// The path in a folder that a stream names, in 16 hexadecimal digits.
fn path_of(rt: &HostRuntime, folder: &str, stream: &[u8; STREAM_LENGTH]) -> io::Result<PathBuf> {
    let alloc = rt.alloc();
    let mut path = format!(in alloc; "{folder}/")?;
    for byte in stream {
        write!(path, "{:02x}", *byte)?;
    }
    Ok(PathBuf::from_str(alloc, path.as_str())?)
}

// The rights of a file, where there is one.
fn rights_of(rt: &HostRuntime, path: &PathBuf) -> Option<Permissions> {
    match fs::symlink_metadata(rt, path.as_path()) {
        Ok(metadata) if metadata.is_file() => Some(metadata.permissions()),
        _ => None,
    }
}

// Locks what a run left that was killed, where it can be read, and takes it away meanwhile. Refuses what another run
// writes now.
fn remove_left(rt: &HostRuntime, path: &str) -> io::Result<()> {
    let Ok(metadata) = fs::symlink_metadata(rt, path) else {
        return Ok(());
    };
    if metadata.is_file()
        && let Ok(left) = File::open(rt, path)
    {
        if matches!(left.try_lock(), Err(TryLockError::WouldBlock)) {
            return Err(io::Error::from(ErrorKind::ResourceBusy));
        }
        return fs::remove_file(rt, path);
    }
    fs::remove_file(rt, path)
}

// Makes a file with these rights, in place of what a run left there that was killed.
fn create_anew(rt: &HostRuntime, path: &str, rights: u32) -> io::Result<File> {
    remove_left(rt, path)?;
    let mut options = OpenOptions::new();
    options.read(true).write(true).create_new(true).mode(rights);
    let file = options.open(rt, path)?;
    lock_made(rt, path, &file)?;
    Ok(file)
}

impl<'c, 'w> Aside<'c, 'w> {
    /// Begins a file beside its place, with these rights, or those that umask leaves.
    pub fn create(
        system: System<'c, 'w>,
        path: &'w str,
        rights: Option<Permissions>,
    ) -> io::Result<Aside<'c, 'w>> {
        let place = system.noted("opening", path, place_of(system.rt, path))?;
        let beside = beside_of(system.rt, place.as_path().as_str());
        let path = system.noted("opening", path, kept_path(system, beside))?;
        let first = if rights.is_some() { OWN } else { NEW };
        let file = system.noted("opening", path, create_anew(system.rt, path, first))?;
        let aside = Aside {
            system,
            file,
            place,
            path,
        };
        if let Some(rights) = rights
            && let Err(error) = aside.set_rights(&rights)
        {
            let _ = aside.remove();
            return Err(error);
        }
        Ok(aside)
    }

    /// Begins a file in a folder, whose place isn't known yet.
    pub fn create_in(system: System<'c, 'w>, folder: &'w str) -> io::Result<Aside<'c, 'w>> {
        let inside = inside_of(system.rt, folder);
        let path = system.noted("opening", folder, kept_path(system, inside))?;
        let place = PathBuf::from_str(system.rt.alloc(), path)?;
        let file = system.noted("opening", path, create_anew(system.rt, path, NEW))?;
        Ok(Aside {
            system,
            file,
            place,
            path,
        })
    }

    /// What is written.
    pub fn file(&mut self) -> &mut File {
        &mut self.file
    }

    /// Where it stands until it is whole.
    pub fn path(&self) -> &'w str {
        self.path
    }

    fn set_rights(&self, rights: &Permissions) -> io::Result<()> {
        let rights = Permissions::from_mode(rights.mode() & RIGHTS);
        let set = self.file.set_permissions(rights);
        self.system.noted("changing the rights of", self.path, set)
    }

    /// Puts it in its place in a folder, which a stream names, with the rights of a file that is there. Where that
    /// can't be, it is taken away.
    pub fn finish_as(self, folder: &str, stream: &[u8; STREAM_LENGTH]) -> io::Result<()> {
        let mut aside = self;
        match path_of(aside.system.rt, folder, stream) {
            Ok(place) => aside.place = place,
            Err(error) => {
                let _ = aside.remove();
                return Err(error);
            }
        }
        if let Some(rights) = rights_of(aside.system.rt, &aside.place)
            && let Err(error) = aside.set_rights(&rights)
        {
            let _ = aside.remove();
            return Err(error);
        }
        aside.finish(true)
    }
}

impl Beside for Aside<'_, '_> {
    fn put(&self) -> io::Result<()> {
        let (system, path) = (self.system, self.path);
        // Where a file's time can't be set it counts as changed later.
        if let Some(time) = system.mended_time() {
            let _ = self.file.set_modified(time);
        }
        system.noted("writing to", path, self.file.sync_all())?;
        let renamed = fs::rename(system.rt, path, self.place.as_path());
        system.noted("renaming", path, renamed)
    }

    fn remove(&self) -> io::Result<()> {
        let removed = fs::remove_file(self.system.rt, self.path);
        self.system.noted("removing", self.path, removed)
    }
}
