//! Standard input, or files that are read one behind another.
ghost use Rattle.std.specs.Io.{ReadsAtMost};

use crate::keeping::Keeping;
use crate::shelf::Shelf;
use crate::system::System;
use std::fs::File;
use std::io::{ErrorKind, Read};
use std::{fs, io};

/// What is read.
#[derive(Drop)]
pub struct Source<'c, 'w> {
    system: System<'c, 'w>,
    files: Vec<&'w str>,
    // How many of them were opened, the last of which is read.
    opened: usize,
    file: Option<File>,
    // The shards in its place, where it is a folder of some.
    shelf: Option<Shelf>,
    keeping: Option<Keeping<'c, 'w>>,
}

impl<'c, 'w> Source<'c, 'w> {
    /// Reads these files, or standard input, where there are none. The first one is opened.
    pub fn open(system: System<'c, 'w>, files: Vec<&'w str>) -> io::Result<Source<'c, 'w>> {
        let mut source = Source {
            system,
            files,
            opened: 0,
            file: None,
            shelf: None,
            keeping: None,
        };
        source.open_next()?;
        Ok(source)
    }

    /// Reads what earlier runs kept in a file, and then the same, which is kept there too.
    pub fn open_keeping(
        system: System<'c, 'w>,
        state: &'w str,
        files: Vec<&'w str>,
    ) -> io::Result<Source<'c, 'w>> {
        let keeping = Keeping::open(system, state)?;
        let mut source = Source::open(system, files)?;
        source.keeping = Some(keeping);
        Ok(source)
    }

    /// Reads a file, and says whether there is such a file: else it reads nothing.
    pub fn open_if_there(
        system: System<'c, 'w>,
        path: &'w str,
    ) -> io::Result<(Source<'c, 'w>, bool)> {
        let files = Vec::from_slice(system.rt.alloc(), &[path])?;
        match fs::metadata(system.rt, path) {
            Err(error) if error.kind() == ErrorKind::NotFound => {
                let nothing = Source {
                    system,
                    files,
                    opened: 1,
                    file: None,
                    shelf: None,
                    keeping: None,
                };
                Ok((nothing, false))
            }
            _ => Ok((Source::open(system, files)?, true)),
        }
    }

    /// How long the file is, where it is the only one, and has a length: some that are made as they are read
    /// say that they have none.
    pub fn length(&self) -> Option<u64> {
        if self.files.len() != 1 || self.keeping.is_some() {
            return None;
        }
        match self.file.as_ref()?.metadata() {
            Ok(metadata) if metadata.is_file() && metadata.len() > 0 => Some(metadata.len()),
            _ => None,
        }
    }

    // Opens the next file, where there is one.
    fn open_next(&mut self) -> io::Result<()> {
        self.file = None;
        self.shelf = None;
        let Some(path) = self.files.get(self.opened).copied() else {
            return Ok(());
        };
        self.opened += 1;
        let metadata = fs::metadata(self.system.rt, path);
        let is_folder = matches!(metadata, Ok(metadata) if metadata.is_dir());
        if is_folder && self.system.may_have_shards(path) {
            self.shelf = Shelf::open(self.system.rt, path)?;
        }
        let opened = File::open(self.system.rt, path);
        self.file = Some(self.system.noted("opening", path, opened)?);
        Ok(())
    }

    // Reads the file that is open, or standard input.
    fn read_open(&mut self, buf: &mut [u8]) -> io::Result<usize>
        ensures { ReadsAtMost result buf.new }
    {
        if let Some(shelf) = &mut self.shelf {
            return shelf.read(buf);
        }
        let result = match &mut self.file {
            Some(file) => file.read(buf),
            None if self.files.is_empty() => self.system.rt.stdin().read(buf),
            None => Ok(0),
        };
        let number = self.opened.saturating_sub(1);
        let place = self.files.get(number).copied().unwrap_or("standard input");
        self.system.noted("reading", place, result)
    }

    // Reads the files one behind another.
    fn read_files(&mut self, buf: &mut [u8]) -> io::Result<usize>
        ensures { ReadsAtMost result buf.new }
    {
        for _file in 0..self.files.len() {
            let n = self.read_open(buf)?;
            if n > 0 || buf.is_empty() {
                return Ok(n);
            }
            self.open_next()?;
        }
        self.read_open(buf)
    }
}

impl Read for Source<'_, '_> {
    fn read(&mut self, buf: &mut [u8]) -> io::Result<usize> {
        if let Some(keeping) = &mut self.keeping {
            let n = keeping.read(buf)?;
            if n > 0 {
                return Ok(n);
            }
        }
        let n = self.read_files(buf)?;
        if let Some(keeping) = &mut self.keeping {
            keeping.keep(&buf[..n])?;
        }
        Ok(n)
    }
}
