//! A folder of shards that is written beside its place.
ghost use Rattle.std.specs.Io.{WritesAtMost};

use crate::beside::{Beside, beside_of, is_at, kept_path, lock_made};
use crate::system::System;
use rq_shards::Dealer;
use std::fs::{File, Metadata, OpenOptions, Permissions, TryLockError};
use std::io::ErrorKind;
use std::os::unix::fs::{MetadataExt, OpenOptionsExt, PermissionsExt};
use std::{fs, io};

/// How many shards a folder has at most.
pub const MOST_SHARDS: u16 = 255;

// Who may read, write and run a shard, of those who may the file, and who may one of what is no file.
const RIGHTS: u32 = 0o777;

const OWNER_ALONE: u32 = 0o600;

// How long a file is, and when it was changed.
#[derive(Clone, Copy, PartialEq, Eq)]
struct State {
    length: u64,
    seconds: i64,
    nanoseconds: i64,
}

/// A folder of shards that isn't in its place yet.
#[derive(Drop)]
pub struct Shards<'c, 'w> {
    system: System<'c, 'w>,
    // What marks it, which is locked as long as it is open.
    mark: File,
    files: Dealer<File>,
    // Its place, where it stands until it is whole, and the file that is split.
    folder: &'w str,
    made: &'w str,
    file: &'w str,
    // What the file was as it was opened, where it is one.
    state: Option<State>,
}

fn state_of(metadata: &Metadata) -> Option<State> {
    metadata.is_file().then(|| State {
        length: metadata.len(),
        seconds: metadata.mtime(),
        nanoseconds: metadata.mtime_nsec(),
    })
}

// The rights of a shard.
fn rights_of(metadata: &Metadata) -> u32 {
    if metadata.is_file() {
        metadata.permissions().mode() & RIGHTS
    } else {
        OWNER_ALONE
    }
}

/// The path of the shard of a number in a folder.
pub fn path_of(rt: &HostRuntime, folder: &str, number: u16) -> io::Result<String> {
    Ok(format!(in rt.alloc(); "{folder}/{number:03}")?)
}

// The path of the empty file that marks a folder as one that a run makes, which it has until it is whole.
fn mark_of(rt: &HostRuntime, folder: &str) -> io::Result<String> {
    Ok(format!(in rt.alloc(); "{folder}/splitting.rqcast")?)
}

// Takes away a file, where there is one.
fn remove_there(rt: &HostRuntime, path: &str) -> io::Result<()> {
    match fs::remove_file(rt, path) {
        Err(error) if error.kind() != ErrorKind::NotFound => Err(error),
        _ => Ok(()),
    }
}

fn remove_mark(rt: &HostRuntime, folder: &str) -> io::Result<()> {
    let path = mark_of(rt, folder)?;
    remove_there(rt, path.as_str())
}

// Takes away a folder that a run made, whose mark goes last.
fn remove_folder(rt: &HostRuntime, folder: &str) -> io::Result<()> {
    for number in 0..MOST_SHARDS {
        let path = path_of(rt, folder, number)?;
        remove_there(rt, path.as_str())?;
    }
    remove_mark(rt, folder)?;
    fs::remove_dir(rt, folder)
}

// Whether a run made a folder, which is no link, and didn't end.
fn is_marked(rt: &HostRuntime, folder: &str, mark: &str) -> bool {
    let is_folder = match fs::symlink_metadata(rt, folder) {
        Ok(metadata) => metadata.is_dir(),
        Err(_) => false,
    };
    match fs::symlink_metadata(rt, mark) {
        Ok(metadata) => is_folder && metadata.is_file() && metadata.len() == 0,
        Err(_) => false,
    }
}

// Takes away what a run left that was killed, and locks its mark meanwhile. Refuses what another run writes now, and
// what no run made: one that was killed when its folder had no mark yet, or no more, leaves that to its user.
fn remove_left(rt: &HostRuntime, folder: &str) -> io::Result<()> {
    if fs::symlink_metadata(rt, folder).is_err() {
        return Ok(());
    }
    let path = mark_of(rt, folder)?;
    if !is_marked(rt, folder, path.as_str()) {
        return Err(io::Error::from(ErrorKind::AlreadyExists));
    }
    let mark = File::open(rt, path.as_str())?;
    let is_locked = matches!(mark.try_lock(), Err(TryLockError::WouldBlock));
    if is_locked || !is_at(rt, path.as_str(), &mark)? {
        return Err(io::Error::from(ErrorKind::ResourceBusy));
    }
    remove_folder(rt, folder)
}

// Refuses a place where something is.
fn check_free(rt: &HostRuntime, folder: &str) -> io::Result<()> {
    if fs::symlink_metadata(rt, folder).is_ok() {
        return Err(io::Error::from(ErrorKind::AlreadyExists));
    }
    Ok(())
}

// Makes a file that its owner alone may read and write.
fn create_file(rt: &HostRuntime, path: &str) -> io::Result<File> {
    let mut options = OpenOptions::new();
    options.write(true).create_new(true).mode(OWNER_ALONE);
    options.open(rt, path)
}

// Makes a shard, with these rights.
fn create_shard(rt: &HostRuntime, folder: &str, number: u16, rights: u32) -> io::Result<File> {
    let path = path_of(rt, folder, number)?;
    let file = create_file(rt, path.as_str())?;
    file.set_permissions(Permissions::from_mode(rights))?;
    Ok(file)
}

// Makes so many, with these rights.
fn create_all(rt: &HostRuntime, folder: &str, count: u8, rights: u32) -> io::Result<Vec<File>> {
    let mut files = Vec::new(rt.alloc());
    for number in 0..u16::from(count) {
        files.push(create_shard(rt, folder, number, rights)?)?;
    }
    Ok(files)
}

// Marks a new folder, and locks the mark.
fn create_mark(rt: &HostRuntime, folder: &str) -> io::Result<File> {
    let path = mark_of(rt, folder)?;
    let mark = create_file(rt, path.as_str())?;
    lock_made(rt, path.as_str(), &mark)?;
    Ok(mark)
}

// Makes a folder that is marked, in place of what a run left there that was killed.
fn create_folder<'w>(system: System<'_, 'w>, folder: &'w str) -> io::Result<File> {
    let rt = system.rt;
    system.noted("making", folder, remove_left(rt, folder))?;
    system.noted("making", folder, fs::create_dir(rt, folder))?;
    let mark = create_mark(rt, folder);
    if mark.is_err() {
        let _ = fs::remove_dir(rt, folder);
    }
    system.noted("making shards in", folder, mark)
}

// Takes away what this run made.
fn remove_made<'w>(system: System<'_, 'w>, made: &'w str) -> io::Result<()> {
    system.noted("removing", made, remove_folder(system.rt, made))
}

impl<'c, 'w> Shards<'c, 'w> {
    /// Begins so many shards of a file beside their folder, with the rights of that.
    pub fn create(
        system: System<'c, 'w>,
        folder: &'w str,
        file: &'w str,
        count: u8,
    ) -> io::Result<Shards<'c, 'w>> {
        let rt = system.rt;
        let folder = folder.trim_end_matches('/');
        system.noted("making", folder, check_free(rt, folder))?;
        let metadata = system.noted("opening", file, fs::metadata(rt, file))?;
        let made = system.noted("making", folder, kept_path(system, beside_of(rt, folder)))?;
        let mark = create_folder(system, made)?;
        let opened = create_all(rt, made, count, rights_of(&metadata));
        match system.noted("making shards in", made, opened) {
            Ok(files) => Ok(Shards {
                system,
                mark,
                files: Dealer::new(files),
                folder,
                made,
                file,
                state: state_of(&metadata),
            }),
            Err(error) => {
                let _ = remove_made(system, made);
                Err(error)
            }
        }
    }

    /// Where they stand until they are whole.
    pub fn path(&self) -> &'w str {
        self.made
    }

    // Refuses a file that isn't what it was.
    fn check_file(&self) -> io::Result<()> {
        let metadata = fs::metadata(self.system.rt, self.file)?;
        if state_of(&metadata) == self.state {
            return Ok(());
        }
        Err(io::Error::from(ErrorKind::ResourceBusy))
    }

    /// Writes bytes of cells into the shards that these go to, and answers how many it took.
    pub fn deal(&mut self, bytes: &[u8]) -> io::Result<usize>
        ensures { WritesAtMost result bytes.now }
    {
        self.files.deal(bytes)
    }
}

impl Beside for Shards<'_, '_> {
    // A run that is killed before they are there, when they have no mark any more, leaves them whole beside it: the next
    // one refuses that place.
    fn put(&self) -> io::Result<()> {
        let (system, made) = (self.system, self.made);
        for file in self.files.shards() {
            system.noted("writing to", made, file.sync_all())?;
        }
        system.noted(
            "splitting what changed meanwhile,",
            self.file,
            self.check_file(),
        )?;
        system.noted("removing the mark of", made, remove_mark(system.rt, made))?;
        let renamed = fs::rename(system.rt, made, self.folder);
        system.noted("renaming", made, renamed)
    }

    fn remove(&self) -> io::Result<()> {
        remove_made(self.system, self.made)
    }
}
