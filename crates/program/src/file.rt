//! A file, or standard input, as a source of bytes.
ghost use Rattle.std.specs.Prelude.{◌≡◌, ◌^◌, ◌-◌, ◌<◌, ◌≢◌, IfErr, None};
ghost use Rattle.std.specs.Io.{ReadsAtMost};
ghost use Rattle.std.specs.IoError.{error_kind};
ghost use Rattle.std.specs.Io.KnownBytes.{ReadConsumes};

use arrowtab::{ReadFailed, Source, is_standard_input};
use std::io::{ErrorKind, Input, Read};
use std::rt::Files;
use std::{fs, io};

/// A file that is opened at its first read, and let go of at its end: a name alone costs no descriptor.
/// Each read of a file that can't be opened fails. The name `-` is standard input's, which nothing opens.
#[derive(Drop)]
pub struct FileSource<'a, R: Files + Input> {
    files: &'a R,
    path: &'a str,
    stage: Stage<R::File, R::Reader>,
    failures: u64,
}

/// How far a file was read.
#[derive(Drop)]
enum Stage<F, I> {
    Named,
    Open(F),
    Input(I),
    Ended,
}

impl<'a, R: Files + Input> FileSource<'a, R> {
    pub fn new(files: &'a R, path: &'a str) -> Self
        ensures { result.failures ≡ 0 }
    {
        FileSource {
            files,
            path,
            stage: Stage::Named,
            failures: 0,
        }
    }

    // The next bytes, of a file that is opened where it isn't yet.
    fn next(&mut self, buffer: &mut [u8]) -> io::Result<usize>
        ensures bound { ReadsAtMost result buffer.new }
        ensures count { self.new.failures ≡ self.old.failures }
    {
        if let Stage::Named = &self.stage {
            self.stage = self.opened()?;
        }
        let count = match &mut self.stage {
            Stage::Open(file) => read_retrying(file, buffer)?,
            Stage::Input(input) => read_retrying(input, buffer)?,
            _ => return Ok(0),
        };
        if count == 0 && !buffer.is_empty() {
            self.stage = Stage::Ended;
        }
        Ok(count)
    }

    // The file, or standard input, from which nothing was read.
    fn opened(&self) -> io::Result<Stage<R::File, R::Reader>> {
        if is_standard_input(self.path) {
            Ok(Stage::Input(self.files.reader()))
        } else {
            Ok(Stage::Open(fs::open(self.files, self.path)?))
        }
    }
}

impl<'a, R: Files + Input> Source for FileSource<'a, R> {
    ghost failures = { λ s. s.failures };

    // What a file holds nobody tells.
    ghost remaining = { λ s. None };

    fn read(&mut self, buffer: &mut [u8]) -> Result<usize, ReadFailed> {
        match self.next(buffer) {
            Ok(count) => Ok(count),
            Err(_) => {
                self.failures += 1;
                Err(ReadFailed)
            }
        }
    }
}

// One read, tried again where a signal interrupts it.
fn read_retrying<F: Read>(file: &mut F, buffer: &mut [u8]) -> io::Result<usize>
    ensures bound { ReadsAtMost result buffer.new }
    ensures retried { IfErr result (λ e. error_kind e ≢ ErrorKind.Interrupted) }
    ensures bytes { ReadConsumes (F.remaining file.old) (F.remaining file.new) result buffer.new }
{
    for _try in 0..u64::MAX {
        match file.read(buffer) {
            Err(error) if error.kind() == ErrorKind::Interrupted => {}
            result => return result,
        }
    }
    Err(io::Error::from(ErrorKind::TimedOut))
}
