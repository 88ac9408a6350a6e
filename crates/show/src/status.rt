//! How the program ends, and what it says of a call that failed.
use std::io;
use std::io::{Cursor, ErrorKind, Write};
use std::process::ExitCode;

/// How the program ends, by the number that the system is told.
#[derive(Clone, Copy, Debug, PartialEq, Eq)]
pub(crate) enum Status {
    /// It read to the end.
    Done = 0,
    /// It stopped at what is refused or unfinished.
    Stopped = 1,
    /// Something could not be read, written or understood.
    Failed = 2,
    /// Nobody reads what it writes: the number of a program that SIGPIPE ends, as a shell has it.
    Unread = 141,
}

impl From<Status> for ExitCode {
    fn from(status: Status) -> ExitCode {
        ExitCode::from(status as u8)
    }
}

fn line(rt: HostRuntime, what: &[u8], why: &str) -> io::Result<()> {
    let mut messages = rt.stderr();
    messages.write_all(b"show: ")?;
    messages.write_all(what)?;
    messages.write_all(why.as_bytes())?;
    messages.write_all(b"\n")
}

/// A line to standard error on what failed, and the status after it.
pub(crate) fn message(rt: HostRuntime, what: &[u8], why: &str) -> Status {
    match line(rt, what, why) {
        Err(e) if e.kind() == ErrorKind::BrokenPipe => Status::Unread,
        _ => Status::Failed,
    }
}

/// An error as the system says it: its text goes before the number that stands behind it.
fn without_number(text: &str) -> &str {
    match text.split_once(" (os error ") {
        Some((before, _)) => before,
        None => text,
    }
}

/// A line to standard error on a call that failed, and the status after it.
pub(crate) fn failed(rt: HostRuntime, what: &[u8], error: &io::Error) -> Status {
    // no error's text is as long, and what would stand past the end is left out
    let mut text = Cursor::new([0u8; 256]);
    let _ = write!(text, ": {error}");
    let written = (text.position() as usize).min(256);
    let bytes = text.into_inner();
    let why = std::str::from_utf8(&bytes[..written]).unwrap_or("");
    message(rt, what, without_number(why))
}

/// The status after a write that failed. Nothing is said of an output that nobody reads.
pub(crate) fn lost(rt: HostRuntime, error: &io::Error) -> Status {
    if error.kind() == ErrorKind::BrokenPipe {
        return Status::Unread;
    }
    failed(rt, b"standard output", error)
}
