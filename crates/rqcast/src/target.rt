//! Standard output, or a file that is written beside its place.

use crate::aside::Aside;
use crate::beside::Beside;
use crate::shards::Shards;
use crate::system::System;
use rq_cast::loses;
use rq_cells::STREAM_LENGTH;
use rq_command::Place;
use std::fs::{File, OpenOptions};
use std::io::{ErrorKind, Write};
use std::{fs, io};

// Where bytes go.
#[derive(Drop)]
enum Sink<'c, 'w> {
    Output,
    Device(File, &'w str),
    Aside(Aside<'c, 'w>),
    Shards(Shards<'c, 'w>),
}

/// What is written.
#[derive(Drop)]
pub struct Target<'c, 'w> {
    system: System<'c, 'w>,
    sink: Sink<'c, 'w>,
}

// Where the bytes of a file go. A device is written itself.
fn open_file<'c, 'w>(system: System<'c, 'w>, path: &'w str) -> io::Result<Sink<'c, 'w>> {
    let rights = match fs::metadata(system.rt, path) {
        Ok(metadata) if metadata.is_dir() => {
            let refused = Err(io::Error::from(ErrorKind::IsADirectory));
            system.noted("opening", path, refused)?
        }
        Ok(metadata) if metadata.is_file() => Some(metadata.permissions()),
        Ok(_) => {
            let opened = OpenOptions::new().write(true).open(system.rt, path);
            let device = system.noted("opening", path, opened)?;
            return Ok(Sink::Device(device, path));
        }
        Err(_) => system.rights(),
    };
    Ok(Sink::Aside(Aside::create(system, path, rights)?))
}

impl<'c, 'w> Target<'c, 'w> {
    /// Writes on standard output, or beside a place.
    pub fn create(system: System<'c, 'w>, place: Place<'w>) -> io::Result<Target<'c, 'w>> {
        let sink = match place {
            Place::Output => Sink::Output,
            Place::File(path) => open_file(system, path)?,
            Place::Shards {
                folder,
                file,
                count,
            } => Sink::Shards(Shards::create(system, folder, file, count)?),
        };
        Ok(Target { system, sink })
    }

    /// Writes in a folder, beside the places of streams.
    pub fn create_in(system: System<'c, 'w>, folder: &'w str) -> io::Result<Target<'c, 'w>> {
        let aside = Aside::create_in(system, folder)?;
        let sink = Sink::Aside(aside);
        Ok(Target { system, sink })
    }

    // What is written now, as a failed call names it.
    fn place(&self) -> &'w str {
        match &self.sink {
            Sink::Output => "standard output",
            Sink::Device(_, path) => path,
            Sink::Aside(aside) => aside.path(),
            Sink::Shards(shards) => shards.path(),
        }
    }

    /// Puts the file in its place where it is whole, and takes it away where it isn't.
    pub fn finish(self, is_whole: bool) -> io::Result<()> {
        match self.sink {
            Sink::Aside(aside) => aside.finish(is_whole),
            Sink::Shards(shards) => shards.finish(is_whole),
            Sink::Output | Sink::Device(..) => Ok(()),
        }
    }

    /// Puts the file in a folder under a stream's name, where it is whole and has one, and else takes it away.
    pub fn finish_in(self, folder: &str, stream: Option<[u8; STREAM_LENGTH]>) -> io::Result<()> {
        match (self.sink, stream) {
            (Sink::Aside(aside), Some(stream)) => aside.finish_as(folder, &stream),
            (Sink::Aside(aside), None) => aside.finish(false),
            _ => Ok(()),
        }
    }
}

impl Write for Target<'_, '_> {
    fn write(&mut self, buf: &[u8]) -> io::Result<usize> {
        let result = match &mut self.sink {
            Sink::Output => self.system.rt.stdout().write(buf),
            Sink::Device(file, _) => file.write(buf),
            Sink::Aside(aside) => aside.file().write(buf),
            Sink::Shards(shards) => shards.deal(buf),
        };
        // That a network loses a datagram is no fault of the run.
        if matches!(&result, Err(error) if loses(error)) {
            return result;
        }
        self.system.noted("writing to", self.place(), result)
    }

    fn flush(&mut self) -> io::Result<()> {
        let result = match &mut self.sink {
            Sink::Output => self.system.rt.stdout().flush(),
            Sink::Device(file, _) => file.flush(),
            Sink::Aside(aside) => aside.file().flush(),
            Sink::Shards(_) => Ok(()),
        };
        self.system.noted("writing to", self.place(), result)
    }
}
