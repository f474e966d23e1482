//! The streams of the program: standard input and standard output, or files.
use crate::replacement::{Replacement, Target};
use crate::report::ProgramFault;
use crate::task::Command;
use std::fs::File;
use std::io::{
    self, Error, ErrorKind, IsTerminal, Lock, Read, StderrLock, StdinLock, StdoutLock, Write,
};

/// What the program reads.
#[derive(Drop)]
pub enum Source {
    /// Standard input.
    Standard(StdinLock<'static>),
    /// A file.
    File(File),
    /// A file that could not be opened, for this reason, with which each read fails.
    Unopened(Error),
    /// Nothing: the command reads nothing.
    Nothing,
}

impl Source {
    /// Opens what a command reads.
    pub fn of(rt: &HostRuntime, command: &Result<Command, ProgramFault>) -> Source {
        let Ok(Command::Run(task)) = command else {
            return Source::Nothing;
        };
        match &task.input {
            None => Source::Standard(rt.stdin().lock()),
            Some(name) => Source::named(rt, name.as_str()),
        }
    }

    /// Opens what is read if the name of a file is given.
    fn named(rt: &HostRuntime, name: &str) -> Source {
        if name == "-" {
            return Source::Standard(rt.stdin().lock());
        }
        match File::open(rt, name) {
            Ok(file) => Source::File(file),
            Err(error) => Source::Unopened(error),
        }
    }

    /// Says on `errors` what is waited for, if someone types the input.
    pub fn announce(&self, errors: &mut StderrLock<'static>) {
        let Source::Standard(input) = self else {
            return;
        };
        if input.is_terminal() {
            let _ = writeln!(
                errors,
                "naga_opt: reading the JSON of a module from the terminal"
            );
        }
    }
}

impl Read for Source {
    fn read(&mut self, buf: &mut [u8]) -> io::Result<usize> {
        match self {
            Source::Standard(input) => input.read(buf),
            Source::File(file) => file.read(buf),
            Source::Unopened(error) => Err(*error),
            Source::Nothing => Err(Error::from(ErrorKind::NotFound)),
        }
    }
}

/// What the program writes. A file is opened by the first write or flush.
#[derive(Drop)]
pub enum Sink<'a> {
    /// Standard output.
    Standard(StdoutLock<'static>),
    /// A file that is not open yet.
    Named(&'a HostRuntime, &'a str),
    /// A file that takes each write at once: a device, a pipe, or another file that cannot be replaced.
    Special(File),
    /// A file that is replaced by the first flush.
    Replaced(Replacement<'a>),
}

impl<'a> Sink<'a> {
    /// Returns what a command writes.
    pub fn of(rt: &'a HostRuntime, command: &'a Result<Command, ProgramFault>) -> Sink<'a> {
        let Ok(Command::Run(task)) = command else {
            return Sink::Standard(rt.stdout().lock());
        };
        match &task.output {
            None => Sink::Standard(rt.stdout().lock()),
            Some(name) => Sink::named(rt, name.as_str()),
        }
    }

    /// Returns what is written if the name of a file is given.
    fn named(rt: &'a HostRuntime, name: &'a str) -> Sink<'a> {
        match name {
            "-" => Sink::Standard(rt.stdout().lock()),
            "/dev/stdout" => Sink::Standard(rt.stdout().lock()),
            _ => Sink::Named(rt, name),
        }
    }

    /// Opens the file that is not open yet, if there is one.
    fn open(&mut self) -> io::Result<()> {
        if let Sink::Named(rt, name) = self {
            *self = match Target::of(*rt, *name)? {
                Target::Special => Sink::Special(File::create(*rt, *name)?),
                Target::File(path, access) => {
                    Sink::Replaced(Replacement::begin(*rt, path, Some(access))?)
                }
                Target::Missing(path) => Sink::Replaced(Replacement::begin(*rt, path, None)?),
            };
        }
        Ok(())
    }
}

impl Write for Sink<'_> {
    fn write(&mut self, buf: &[u8]) -> io::Result<usize> {
        self.open()?;
        match self {
            Sink::Standard(output) => output.write(buf),
            Sink::Special(file) => file.write(buf),
            Sink::Replaced(replacement) => replacement.write(buf),
            Sink::Named(..) => Err(Error::from(ErrorKind::Other)),
        }
    }

    fn flush(&mut self) -> io::Result<()> {
        self.open()?;
        match self {
            Sink::Standard(output) => output.flush(),
            Sink::Special(file) => file.flush(),
            Sink::Replaced(replacement) => replacement.flush(),
            Sink::Named(..) => Err(Error::from(ErrorKind::Other)),
        }
    }
}
