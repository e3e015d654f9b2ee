//! What a run reads and where it writes, which are to be apart.

use crate::aside::{inside_of, place_of};
use crate::beside::beside_of;
use crate::keeping::{Node, node_at, node_of};
use crate::system::System;
use rq_command::{Job, ReceiveJob};
use std::alloc::AllocError;
use std::io::Write;
use std::path::Path;
use std::{fs, io};

// What standard input and output are, where the system says so.
const INPUT: &str = "/dev/stdin";

const OUTPUT: &str = "/dev/stdout";

// Something that is read or written, as the words of the line name it.
#[derive(Clone, Copy)]
struct Named<'w> {
    // What it is, as FILE or --key.
    what: &'static str,
    // The file that is said, or none for standard input or output.
    said: Option<&'w str>,
    path: &'w str,
}

impl<'w> Named<'w> {
    fn file(what: &'static str, path: &'w str) -> Named<'w> {
        Named {
            what,
            said: Some(path),
            path,
        }
    }

    fn input() -> Named<'w> {
        Named {
            what: "standard input",
            said: None,
            path: INPUT,
        }
    }

    fn output() -> Named<'w> {
        Named {
            what: "standard output",
            said: None,
            path: OUTPUT,
        }
    }

    fn write<W: Write>(&self, out: &mut W) -> io::Result<()> {
        let what = self.what;
        match self.said {
            Some(path) => write!(out, "{what} {path}"),
            None => write!(out, "{what}"),
        }
    }
}

// Which file it is. One that isn't there is known by its folder and its name.
#[derive(Clone, Copy, PartialEq, Eq)]
enum Spot<'a> {
    There(Node),
    Missing(Node, &'a str),
}

// Which file a path leads to: none where that is a device or a folder, or has no folder.
fn spot_of<'a>(rt: &HostRuntime, path: &'a str) -> Option<Spot<'a>> {
    match fs::metadata(rt, path) {
        Ok(metadata) if metadata.is_file() => Some(Spot::There(node_of(&metadata))),
        Ok(_) => None,
        Err(_) => {
            let path = Path::new(path);
            let folder = path.parent()?.as_str();
            let folder = if folder.is_empty() { "." } else { folder };
            Some(Spot::Missing(node_at(rt, folder)?, path.file_name()?))
        }
    }
}

/// What is written, and what is read that isn't apart from it.
#[derive(Clone, Copy)]
pub struct Clash<'w> {
    written: Named<'w>,
    read: Named<'w>,
    // Whether that is where it is written until it is whole.
    is_beside: bool,
}

impl Clash<'_> {
    /// Writes the line that says it.
    pub fn write<W: Write>(&self, out: &mut W) -> io::Result<()> {
        write!(out, "rqcast: ")?;
        if self.is_beside {
            self.read.write(out)?;
            write!(out, " stands where ")?;
            self.written.write(out)?;
            return writeln!(out, " is written until it is whole: give it another name");
        }
        self.written.write(out)?;
        write!(out, " and ")?;
        self.read.write(out)?;
        writeln!(out, " are one file")
    }
}

// What a run reads.
#[derive(Drop)]
struct Reads<'c, 'w> {
    system: System<'c, 'w>,
    // And whether what is written may be put in its place, when all is read.
    named: Vec<(Named<'w>, bool)>,
}

impl<'c, 'w> Reads<'c, 'w> {
    // The file of a key, where there is one, and files, or standard input, where there are none.
    fn new(
        system: System<'c, 'w>,
        key: Option<&'w str>,
        what: &'static str,
        files: &[&'w str],
        yields: bool,
    ) -> Result<Reads<'c, 'w>, AllocError> {
        let mut named = Vec::new(system.rt.alloc());
        if let Some(key) = key {
            named.push((Named::file("--key", key), false))?;
        }
        if files.is_empty() {
            named.push((Named::input(), yields))?;
        }
        for path in files {
            named.push((Named::file(what, *path), yields))?;
        }
        Ok(Reads { system, named })
    }

    // One file more.
    fn push(&mut self, named: Named<'w>) -> Result<(), AllocError> {
        self.named.push((named, false))?;
        Ok(())
    }

    // What isn't apart from what is written, and where that stands until it is whole, if it is put in its place then.
    fn clash(&self, written: Named<'w>, beside: Option<&str>) -> Option<Clash<'w>> {
        let rt = self.system.rt;
        let place = spot_of(rt, written.path);
        let aside = match beside {
            Some(path) => spot_of(rt, path),
            None => None,
        };
        for (read, yields) in &self.named {
            let spot = spot_of(rt, read.path);
            let is_replaced = *yields && beside.is_some();
            let is_place = spot == place && !is_replaced;
            let is_beside = spot == aside;
            if spot.is_some() && (is_place || is_beside) {
                return Some(Clash {
                    written,
                    read: *read,
                    is_beside: !is_place,
                });
            }
        }
        None
    }

    // The same of what is written beside its place.
    fn clash_aside(&self, written: Named<'w>) -> Result<Option<Clash<'w>>, AllocError> {
        let rt = self.system.rt;
        let Ok(place) = place_of(rt, written.path) else {
            return Ok(None);
        };
        let beside = beside_of(rt, place.as_path().as_str())?;
        Ok(self.clash(written, Some(beside.as_str())))
    }
}

// The same of a stream that is received, and of what is kept of it.
fn clash_receiving<'w>(
    system: System<'_, 'w>,
    job: &ReceiveJob<'w>,
) -> Result<Option<Clash<'w>>, AllocError> {
    let mut reads = Reads::new(system, job.key, "CELLS", job.files.as_slice(), true)?;
    if let Some(state) = job.state {
        let state = Named::file("--state", state);
        if let Some(clash) = reads.clash(state, None) {
            return Ok(Some(clash));
        }
        reads.push(state)?;
    }
    match job.output {
        Some(place) => reads.clash_aside(Named::file("--output", place)),
        None => Ok(reads.clash(Named::output(), None)),
    }
}

/// What of a job isn't apart: a file that is read, and that would be written, taken away or replaced. One may be
/// replaced by what is made of it.
pub fn clash_of<'w>(
    system: System<'_, 'w>,
    job: &Job<'w>,
) -> Result<Option<Clash<'w>>, AllocError> {
    match job {
        Job::Send(job) => {
            let reads = Reads::new(system, job.key, "FILE", job.files.as_slice(), false)?;
            Ok(reads.clash(Named::output(), None))
        }
        Job::Receive(job) | Job::Join(job) => clash_receiving(system, job),
        Job::Follow(job) => {
            let reads = Reads::new(system, job.key, "CELLS", job.files.as_slice(), false)?;
            let inside = inside_of(system.rt, job.folder)?;
            Ok(reads.clash(Named::file("--output", job.folder), Some(inside.as_str())))
        }
        Job::Protect(job) => {
            let reads = Reads::new(system, job.key, "FILE", &[job.file], false)?;
            let guard = system.guard_path(job.file, job.output)?;
            reads.clash_aside(Named::file("GUARD", guard))
        }
        Job::Repair(job) => {
            let mut reads = Reads::new(system, job.key, "FILE", &[job.file], true)?;
            let guard = system.guard_path(job.file, job.guard)?;
            reads.push(Named::file("GUARD", guard))?;
            match job.output {
                Some(place) => reads.clash_aside(Named::file("--output", place)),
                None => reads.clash_aside(Named::file("FILE", job.file)),
            }
        }
        _ => Ok(None),
    }
}
