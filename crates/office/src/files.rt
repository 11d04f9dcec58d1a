//! Inputs by their names, and a file that is written aside. No clause can say what a file gives or takes.
use crate::troubles::Trouble;
use std::cell::RefCell;
use std::fs::{File, OpenOptions};
use std::io::{ErrorKind, Read, Stdin, Write};
use std::{fs, io, process};

/// An input: a file, or standard input.
#[derive(Drop)]
pub enum Source {
    /// An open file.
    File(File),
    /// What the program is given on standard input.
    Standard(Stdin),
}

fn opened(rt: &HostRuntime, name: &str) -> io::Result<Source> {
    if name == "-" {
        return Ok(Source::Standard(rt.stdin()));
    }
    Ok(Source::File(File::open(rt, name)?))
}

impl Source {
    /// Opens what is named: `-` is standard input, anything else a file.
    pub fn open(rt: &HostRuntime, name: &str) -> Result<Source, Trouble> {
        match opened(rt, name) {
            Ok(source) => Ok(source),
            Err(error) => Err(Trouble::unread(rt.alloc(), name, error)),
        }
    }
}

impl Read for Source {
    fn read(&mut self, buf: &mut [u8]) -> io::Result<usize> {
        match self {
            Source::File(file) => file.read(buf),
            Source::Standard(input) => input.read(buf),
        }
    }
}

/// The first of two inputs, which is closed before the second is opened.
#[derive(Drop)]
pub struct First {
    source: RefCell<Option<Source>>,
}

impl First {
    /// Opens what is named: `-` is standard input, anything else a file.
    pub fn open(rt: &HostRuntime, name: &str) -> Result<First, Trouble> {
        let source = Source::open(rt, name)?;
        Ok(First {
            source: RefCell::new(Some(source)),
        })
    }

    // Nothing more is read of it.
    fn close(&self) {
        if let Ok(mut source) = self.source.try_borrow_mut() {
            *source = None;
        }
    }
}

impl Read for &First {
    fn read(&mut self, buf: &mut [u8]) -> io::Result<usize> {
        let Ok(mut held) = self.source.try_borrow_mut() else {
            return Ok(0);
        };
        let held = &mut *held;
        match held {
            Some(source) => source.read(buf),
            None => Ok(0),
        }
    }
}

/// The second of two inputs: its first read closes the first and opens it. So whoever writes the two into pipes, one after the other, is
/// not kept waiting for a reader.
#[derive(Drop)]
pub struct Second<'r, 'n, 'f> {
    /// What opens files.
    pub rt: &'r HostRuntime,
    /// What is to be opened; `-` is standard input.
    pub name: &'n str,
    /// The first input.
    pub first: &'f First,
    /// What is read, once it is open.
    pub source: Option<Source>,
}

impl Read for Second<'_, '_, '_> {
    fn read(&mut self, buf: &mut [u8]) -> io::Result<usize> {
        if let Some(source) = self.source.as_mut() {
            return source.read(buf);
        }
        self.first.close();
        let mut source = opened(self.rt, self.name)?;
        let read = source.read(buf);
        self.source = Some(source);
        read
    }
}

/// A file that is written aside, in the folder where it belongs, and takes its name only once it is whole.
#[derive(Drop)]
pub struct Aside {
    file: File,
    part: String,
    name: String,
}

impl Aside {
    /// Begins a file that is to take a name. What stands there has to be a file, and no link to one, or nothing.
    pub fn create(rt: &HostRuntime, name: &str) -> Result<Aside, Trouble> {
        match fs::symlink_metadata(rt, name) {
            Ok(there) if there.is_file() => {}
            Ok(_) => return Err(Trouble::kept(rt.alloc(), name, "is no file")),
            Err(error) if error.kind() == ErrorKind::NotFound => {}
            Err(error) => return Err(Trouble::unwritten(rt.alloc(), name, error)),
        }
        let id = process::id(rt.process());
        let part = format!(in rt.alloc(); "{name}.{id}.part")?;
        let opened = OpenOptions::new()
            .write(true)
            .create_new(true)
            .open(rt, part.as_str());
        match opened {
            Ok(file) => {
                let name = String::from_str(rt.alloc(), name)?;
                Ok(Aside { file, part, name })
            }
            Err(error) => Err(Trouble::unwritten(rt.alloc(), name, error)),
        }
    }

    /// The file is whole: it takes its name, in place of what stood there.
    pub fn finish(self, rt: &HostRuntime) -> Result<(), Trouble> {
        let Aside { file, part, name } = self;
        let kept = file.sync_all();
        let taken = match kept {
            Ok(()) => fs::rename(rt, part.as_str(), name.as_str()),
            Err(error) => Err(error),
        };
        if taken.is_err() {
            let _ = fs::remove_file(rt, part.as_str());
        }
        match taken {
            Ok(()) => Ok(()),
            Err(error) => Err(Trouble::Unwritten { name, error }),
        }
    }

    /// The file is not wanted: what stands under its name stays as it is.
    pub fn give_up(self, rt: &HostRuntime) {
        let _ = fs::remove_file(rt, self.part.as_str());
    }
}

impl Write for Aside {
    fn write(&mut self, buf: &[u8]) -> io::Result<usize> {
        self.file.write(buf)
    }

    fn flush(&mut self) -> io::Result<()> {
        self.file.flush()
    }
}
