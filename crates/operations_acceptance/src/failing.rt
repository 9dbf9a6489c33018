ghost use Rattle.std.specs.Prelude.{IsErr};

use std::alloc::{Allocator, Global};
use std::fmt::Display;
use std::fs::{Metadata, OpenFile, OpenOptions};
use std::io;
use std::io::{ErrorKind, Read, Seek, SeekFrom, Write};
use std::rt::Files;

fn unsupported<T>() -> io::Result<T>
    ensures { IsErr result }
{
    Err(io::Error::from(ErrorKind::Unsupported))
}

/// A file of which the first read gives three bytes, and each later one fails.
#[derive(Drop)]
pub struct FailingFile {
    pub reads: u64,
}

impl Read for FailingFile {
    fn read(&mut self, buf: &mut [u8]) -> io::Result<usize> {
        if self.reads > 0 || buf.len() < 3 {
            return unsupported();
        }
        self.reads = 1;
        buf[..3].copy_from_slice(b"abc");
        Ok(3)
    }
}

impl Write for FailingFile {
    fn write(&mut self, _buf: &[u8]) -> io::Result<usize> {
        unsupported()
    }

    fn flush(&mut self) -> io::Result<()> {
        unsupported()
    }
}

impl Seek for FailingFile {
    fn seek(&mut self, _to: SeekFrom) -> io::Result<u64> {
        unsupported()
    }
}

impl OpenFile for FailingFile {
    fn metadata(&self) -> io::Result<Metadata> {
        unsupported()
    }

    fn set_len(&self, _size: u64) -> io::Result<()> {
        unsupported()
    }

    fn sync_all(&self) -> io::Result<()> {
        unsupported()
    }

    fn sync_data(&self) -> io::Result<()> {
        unsupported()
    }
}

/// A folder whose files are failing ones.
#[derive(Drop)]
pub struct FailingFolder;

impl Files for FailingFolder {
    type File = FailingFile;

    type Dir = FailingFile;

    fn open_file(&self, _how: &OpenOptions, _path: &str) -> io::Result<FailingFile> {
        Ok(FailingFile { reads: 0 })
    }

    fn open_dir(&self, _path: &str) -> io::Result<FailingFile> {
        unsupported()
    }

    fn metadata(&self, _path: &str) -> io::Result<Metadata> {
        unsupported()
    }

    fn symlink_metadata(&self, _path: &str) -> io::Result<Metadata> {
        unsupported()
    }

    fn copy(&self, _from: &str, _to: &str) -> io::Result<u64> {
        unsupported()
    }

    fn rename(&self, _from: &str, _to: &str) -> io::Result<()> {
        unsupported()
    }

    fn remove_file(&self, _path: &str) -> io::Result<()> {
        unsupported()
    }

    fn create_dir(&self, _path: &str) -> io::Result<()> {
        unsupported()
    }

    fn remove_dir(&self, _path: &str) -> io::Result<()> {
        unsupported()
    }

    fn remove_dir_all<B: Allocator>(&self, _alloc: B, _path: &str) -> io::Result<()> {
        unsupported()
    }
}

/// An output that takes three bytes at most, and else fails.
#[derive(Drop)]
pub struct FailingOutput;

impl Print for FailingOutput {
    fn print<D: Display + Drop>(&self, _value: D) -> io::Result<()> {
        unsupported()
    }

    fn println<D: Display + Drop>(&self, _value: D) -> io::Result<()> {
        unsupported()
    }

    fn write_all(&self, bytes: &[u8]) -> io::Result<()> {
        if bytes.len() <= 3 {
            Ok(())
        } else {
            unsupported()
        }
    }
}
