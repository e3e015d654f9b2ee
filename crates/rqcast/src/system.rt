//! The system's devices.
ghost use Rattle.std.specs.Prelude.{◌≡◌, None, IfOk, option_map, string_bytes};
ghost use Rattle.rq_devices.specs.Placed.{guard_name};

use crate::failure::Failure;
use crate::keeping::{Node, forget};
use crate::shards::{MOST_SHARDS, path_of};
use crate::source::Source;
use crate::target::Target;
use rq_cells::STREAM_LENGTH;
use rq_command::{Devices, Place};
use rq_streams::{Counted, Stop};
use std::alloc::{AllocError, Global};
use std::cell::{Cell, OnceCell};
use std::fs::Permissions;
use std::io::IsTerminal;
use std::time::SystemTime;
use std::{fs, io};

/// Standard input and output, and files. It knows which call failed first.
#[derive(Clone, Copy)]
pub struct System<'c, 'w> {
    pub rt: &'c HostRuntime,
    /// Which call failed first, and why.
    pub failure: &'c Cell<Option<Failure<'w>>>,
    /// The file that is written beside its place, or in a folder, where there is one.
    pub beside: &'w OnceCell<String>,
    /// The file in which what is read is kept, where there is one.
    pub kept: &'c Cell<Option<Node>>,
    /// The name of a file's guard, where none is said.
    pub guard: &'w OnceCell<String>,
    /// The file that is guarded or mended, or the first shard that is joined: a new file has its rights.
    pub file: Option<&'w str>,
    /// The guard that it is mended by.
    pub mends_by: Option<&'w str>,
    /// The first shard of a folder that is joined.
    pub shard: &'w OnceCell<String>,
    /// That folder.
    pub joined: Option<&'w str>,
    /// Whether the run looks for cells, also in folders of shards, and the file of its key, which is none.
    pub finds_cells: bool,
    pub key: Option<&'w str>,
}

// The name of a file's guard.
fn guard_of(alloc: Global, file: &str) -> Result<String, AllocError>
    ensures { IfOk result (λ name. string_bytes name ≡ guard_name file.now None) }
{
    format!(in alloc; "{file}.rqc")
}

// When a file was written, where there is one.
fn time_of(rt: &HostRuntime, path: &str) -> Option<SystemTime> {
    match fs::metadata(rt, path) {
        Ok(metadata) if metadata.is_file() => metadata.modified().ok(),
        _ => None,
    }
}

// Who may read and write it.
fn rights_at(rt: &HostRuntime, path: &str) -> Option<Permissions> {
    match fs::metadata(rt, path) {
        Ok(metadata) if metadata.is_file() => Some(metadata.permissions()),
        _ => None,
    }
}

impl<'c, 'w> System<'c, 'w> {
    /// What a call answered. Where it failed, and none did before, that is noted.
    pub fn noted<T>(
        &self,
        tried: &'static str,
        place: &'w str,
        answer: io::Result<T>,
    ) -> io::Result<T>
        ensures { result ≡ answer }
    {
        if let Err(error) = &answer
            && self.failure.get().is_none()
        {
            let error = *error;
            let failure = Failure {
                tried,
                place,
                error,
            };
            self.failure.set(Some(failure));
        }
        answer
    }
}

impl<'w> System<'_, 'w> {
    /// The guard of the run's file: one that is said, or that which is named by the file.
    pub fn guard_path(&self, file: &'w str, said: Option<&'w str>) -> Result<&'w str, AllocError>
        ensures { IfOk result (λ s. s.now ≡ guard_name file.entry.now (option_map (λ s. s.now) said.entry)) }
    {
        if let Some(guard) = said {
            return Ok(guard);
        }
        let alloc = self.rt.alloc();
        let name = guard_of(alloc, file)?;
        let kept = self.guard.get_or_try_init(|| guard_of(alloc, file))?;
        // A run has one file.
        if kept.as_str() == name.as_str() {
            Ok(kept.as_str())
        } else {
            Err(AllocError)
        }
    }

    /// The rights of what is made in a new place: those of the file that is guarded or mended, or of its guard where that
    /// file is gone.
    pub fn rights(&self) -> Option<Permissions> {
        let rights = rights_at(self.rt, self.file?);
        match (rights, self.mends_by) {
            (None, Some(guard)) => rights_at(self.rt, guard),
            (rights, _) => rights,
        }
    }

    /// The same of a run that looks for cells by a key.
    pub fn finding(self, key: Option<&'w str>) -> Self {
        let mut system = self;
        system.finds_cells = true;
        system.key = key;
        system
    }

    /// Whether a path may lead to a folder of shards.
    pub fn may_have_shards(&self, path: &str) -> bool {
        let is_key = match self.key {
            Some(key) => key == path,
            None => false,
        };
        self.finds_cells && !is_key
    }

    /// The first shard that is there of a folder.
    pub fn first_shard(&self, folder: &str) -> Option<&'w str> {
        for number in 0..MOST_SHARDS {
            let path = path_of(self.rt, folder, number).ok()?;
            if rights_at(self.rt, path.as_str()).is_some() {
                let kept = self
                    .shard
                    .get_or_try_init(|| Ok::<String, AllocError>(path));
                return kept.ok().map(|path| path.as_str());
            }
        }
        None
    }

    /// The time of a mended file: that of the damaged one, where it isn't newer than its guard, and else that of the guard.
    pub fn mended_time(&self) -> Option<SystemTime> {
        let guard = time_of(self.rt, self.mends_by?)?;
        match time_of(self.rt, self.file?) {
            Some(time) if time < guard => Some(time),
            _ => Some(guard),
        }
    }
}

impl<'c, 'w> Devices<'w> for System<'c, 'w> {
    ghost use Rattle.std.specs.Prelude.{None};

    type Reader = Source<'c, 'w>;

    type Writer = Target<'c, 'w>;

    ghost stands = { λ _ _. None };

    ghost placed = { λ _ _. None };

    ghost filed = { λ _ _. None };

    ghost blank = { λ _. None };

    fn shows_output(&self) -> bool {
        self.rt.stdout().is_terminal()
    }

    fn open(&mut self, files: Vec<&'w str>) -> Result<Source<'c, 'w>, Stop> {
        Source::open(*self, files).map_err(|_| Stop::Fault)
    }

    fn open_keeping(
        &mut self,
        state: &'w str,
        files: Vec<&'w str>,
    ) -> Result<Source<'c, 'w>, Stop> {
        Source::open_keeping(*self, state, files).map_err(|_| Stop::Fault)
    }

    fn forget(&mut self, state: &'w str) -> Result<(), Stop> {
        forget(*self, state).map_err(|_| Stop::Fault)
    }

    fn open_if_there(&mut self, file: &'w str) -> Result<(Source<'c, 'w>, bool), Stop> {
        Source::open_if_there(*self, file).map_err(|_| Stop::Fault)
    }

    fn open_guard(&mut self, file: &'w str, said: Option<&'w str>) -> Result<Source<'c, 'w>, Stop> {
        let guard = self.guard_path(file, said)?;
        let files = Vec::from_slice(self.rt.alloc(), &[guard])?;
        self.open(files)
    }

    fn guard_of(&mut self, file: &'w str) -> Result<&'w str, Stop> {
        Ok(self.guard_path(file, None)?)
    }

    fn is_newer(&self, file: &'w str, said: Option<&'w str>) -> bool {
        let Ok(guard) = self.guard_path(file, said) else {
            return false;
        };
        match (time_of(self.rt, file), time_of(self.rt, guard)) {
            (Some(file), Some(guard)) => file > guard,
            _ => false,
        }
    }

    fn length(&self, reader: &Source<'c, 'w>) -> Option<u64> {
        reader.length()
    }

    fn count<X>(&mut self, _calls: &Counted<X>) {}

    fn create(&mut self, place: Place<'w>) -> Result<Target<'c, 'w>, Stop> {
        Target::create(*self, place).map_err(|_| Stop::Fault)
    }

    fn finish(
        &mut self,
        _place: Place<'w>,
        writer: Target<'c, 'w>,
        is_whole: bool,
    ) -> Result<(), Stop> {
        writer.finish(is_whole).map_err(|_| Stop::Fault)
    }

    fn create_in(&mut self, folder: &'w str) -> Result<Target<'c, 'w>, Stop> {
        Target::create_in(*self, folder).map_err(|_| Stop::Fault)
    }

    fn finish_in(
        &mut self,
        folder: &'w str,
        writer: Target<'c, 'w>,
        stream: Option<[u8; STREAM_LENGTH]>,
    ) -> Result<(), Stop> {
        writer.finish_in(folder, stream).map_err(|_| Stop::Fault)
    }
}
