//! A file that is the output of a run: what is written lies beside it until the run has ended well, and then takes its place.

ghost use Rattle.std.specs.Prelude.{◌≡◌, ◌⊎◌, Err, IfErr, Ok, OnOk};
ghost use Rattle.csicodec_command.specs.Failure.{status};

use crate::failure::Failure;
use crate::run::failed;
use std::alloc::AllocError;
use std::fs::{self, File, Permissions};
use std::io::{self, Error, ErrorKind, Stdout, Write};

/// How many names are tried for what is written beside a file.
const NAMES: u32 = 100;

/// Standard output, or a file.
#[derive(Drop)]
pub(crate) enum Sink {
    Standard(Stdout),
    Named(File),
}

impl Write for Sink {
    fn write(&mut self, bytes: &[u8]) -> io::Result<usize> {
        match self {
            Sink::Standard(output) => output.write(bytes),
            Sink::Named(file) => file.write(bytes),
        }
    }

    fn flush(&mut self) -> io::Result<()> {
        match self {
            Sink::Standard(output) => output.flush(),
            Sink::Named(file) => file.flush(),
        }
    }
}

/// A file that a run writes.
#[derive(Drop)]
pub(crate) struct Replaced<'a> {
    path: &'a str,
    /// Where it lies until the run has ended; none for a device or a pipe, which is written itself.
    beside: Option<String>,
}

/// The name of what is written beside a file, by its number.
fn name_beside(rt: &HostRuntime, path: &str, number: u32) -> Result<String, AllocError> {
    format!(in rt.alloc(); "{path}.{number}.tmp")
}

/// A new file beside this one, and its name.
fn new_beside(rt: &HostRuntime, path: &str) -> io::Result<(File, String)> {
    for number in 0..NAMES {
        let name = name_beside(rt, path, number)?;
        match File::create_new(rt, name.as_str()) {
            Ok(file) => return Ok((file, name)),
            Err(error) if error.kind() == ErrorKind::AlreadyExists => {}
            Err(error) => return Err(error),
        }
    }
    Err(Error::from(ErrorKind::AlreadyExists))
}

/// Begins to write a new file beside this one, with this mode, if there is one.
fn begun_beside<'a>(
    rt: &HostRuntime,
    path: &'a str,
    mode: Option<Permissions>,
) -> io::Result<(Sink, Replaced<'a>)> {
    let (file, name) = new_beside(rt, path)?;
    if let Some(mode) = mode {
        if let Err(error) = fs::set_permissions(rt, name.as_str(), mode) {
            let _removed = fs::remove_file(rt, name.as_str());
            return Err(error);
        }
    }
    let beside = Some(name);
    Ok((Sink::Named(file), Replaced { path, beside }))
}

/// Begins to write a file, beside it where it is no device or pipe.
fn begun<'a>(rt: &HostRuntime, path: &'a str) -> io::Result<(Sink, Replaced<'a>)> {
    match fs::metadata(rt, path) {
        Ok(there) if !there.is_file() => {
            let file = File::options().write(true).open(rt, path)?;
            let beside = None;
            Ok((Sink::Named(file), Replaced { path, beside }))
        }
        Ok(there) => begun_beside(rt, path, Some(there.permissions())),
        Err(_) => begun_beside(rt, path, None),
    }
}

impl<'a> Replaced<'a> {
    /// Begins to write this file; the status, if that failed.
    pub(crate) fn new(rt: &HostRuntime, path: &'a str) -> Result<(Sink, Replaced<'a>), u8>
        ensures { IfErr result (λ n. n ≡ status Failure.Open) }
    {
        match begun(rt, path) {
            Ok(begun) => Ok(begun),
            Err(error) => Err(failed(rt, Failure::Open, path, Some(error))),
        }
    }

    /// Puts what was written in the file's place, or drops it where the run failed; the status of what failed.
    pub(crate) fn end(self, rt: &HostRuntime, done: Result<(), u8>) -> Result<(), u8>
        ensures failed { IfErr done (λ n. result ≡ Err n) }
        ensures done { OnOk done ((result ≡ Ok tt) ⊎ (result ≡ Err (status Failure.Open))) }
    {
        let Some(beside) = &self.beside else {
            return done;
        };
        let failure = match done {
            Err(status) => Err(status),
            Ok(()) => match fs::rename(rt, beside.as_str(), self.path) {
                Ok(()) => return Ok(()),
                Err(error) => Err(failed(rt, Failure::Open, self.path, Some(error))),
            },
        };
        // Where it can't be removed either, it lies there.
        let _removed = fs::remove_file(rt, beside.as_str());
        failure
    }
}
