ghost use Rattle.std.specs.Prelude.{◌≡◌, ◌<◌, length, IfOk, OnOk, IsTrue};
ghost use Rattle.std.specs.Io.{ReadsAtMost, WritesAtMost};
ghost use Rattle.std.specs.Io.KnownBytes.{ReadConsumes};
ghost use Rattle.ots_base.specs.Cause.{HasCause};
ghost use Rattle.ots_outside.specs.Shelf.{is_reading, is_writing};
ghost use Rattle.ots_real.specs.FileCalls.{is_durable, Writes};
ghost use Rattle.ots_real.specs.NewFile.{AppendsSome};
ghost use Rattle.ots_real.specs.OpenFile.{use_of_file, left_in, taken_in, faults_in, calls_in};

use crate::StdSource;
use crate::new_file::NewFile;
use ots_outside::{Failed, Source};
use std::fs;
use std::io::{Read, Write};

/// What a slot holds of a file.
#[derive(Drop)]
pub enum OpenFile<F: Read + Write + fs::OpenFile> {
    Closed,
    Reading(StdSource<F>),
    Writing(NewFile<F>),
}

impl<F: Read + Write + fs::OpenFile> OpenFile<F> {
    /// Reads a file that was opened.
    pub fn read(&mut self, buf: &mut [u8]) -> Result<usize, Failed>
        requires { IsTrue (is_reading (use_of_file self.old)) }
        ensures bound { ReadsAtMost result buf.new }
        ensures file { ReadConsumes (left_in F.remaining self.old) (left_in F.remaining self.new) result buf.new }
        ensures cause { HasCause (faults_in self.old) (faults_in self.new) result }
        ensures use_stays { use_of_file self.new ≡ use_of_file self.old }
    {
        match self {
            OpenFile::Reading(file) => file.read(buf),
            _ => unreachable!(),
        }
    }

    /// Writes to a file that was created.
    pub fn write(&mut self, piece: &[u8]) -> Result<usize, Failed>
        requires { IsTrue (is_writing (use_of_file self.old)) }
        ensures bound { WritesAtMost result piece.now }
        ensures some { 0 < length piece.now → IfOk result (λ count. 0 < count) }
        ensures file { AppendsSome (taken_in F.contents self.old) (taken_in F.contents self.new) result piece.now }
        ensures calls { Writes (calls_in self.old) (calls_in self.new) result }
        ensures durable { OnOk result (IsTrue (is_durable (calls_in self.new))) }
        ensures cause { HasCause (faults_in self.old) (faults_in self.new) result }
        ensures use_stays { use_of_file self.new ≡ use_of_file self.old }
    {
        match self {
            OpenFile::Writing(file) => file.write(piece),
            _ => unreachable!(),
        }
    }
}
