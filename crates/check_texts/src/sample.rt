//! A record of the list: a check, a text, and what the check is expected to say.
ghost use Rattle.std.specs.Prelude.{◌<◌, length, IfOk, IfSome};

use crate::check::Check;
use crate::said::Said;
use lists::Record;
use std::fmt;
use text::scan;

/// Why a record is not as it should be.
#[derive(Clone, Copy, Debug, PartialEq, Eq)]
pub(crate) enum Fault {
    /// no end of a line is there
    NoEnd,
    /// the line is no record
    NoRecord,
    /// the check says something else
    Got(Said),
}

impl fmt::Display for Fault {
    fn fmt<W: fmt::Write>(&self, f: &mut fmt::Formatter<W>) -> fmt::Result {
        match *self {
            Fault::NoEnd => write!(f, "no LF"),
            Fault::NoRecord => write!(f, "no record"),
            Fault::Got(said) => write!(f, "got {said}"),
        }
    }
}

#[derive(Clone, Copy)]
pub(crate) struct Sample<'a> {
    pub(crate) check: Check,
    expected: &'a [u8],
    text: &'a [u8],
}

/// What stands before the first such byte, and what behind it; none where there is none.
fn split_once(s: &[u8], byte: u8) -> Option<(&[u8], &[u8])>
    ensures { IfSome result (λ p. length p.1.now < length s.now) }
{
    let place = scan::find(s, byte)?;
    Some((&s[..place], &s[place + 1..]))
}

/// The record that a line is; none where it is no record.
fn parsed(line: &[u8]) -> Option<Sample<'_>> {
    let (letter, rest) = line.split_first()?;
    let check = Check::from_letter(*letter)?;
    let (expected, text) = split_once(rest.strip_prefix(b"\t")?, b'\t')?;
    Some(Sample {
        check,
        expected,
        text,
    })
}

impl<'a> Record<'a, Fault> for Sample<'a> {
    fn parse(list: &'a [u8]) -> Result<(Self, &'a [u8]), Fault> {
        let (line, rest) = split_once(list, b'\n').ok_or(Fault::NoEnd)?;
        let sample = parsed(line).ok_or(Fault::NoRecord)?;
        Ok((sample, rest))
    }
}

impl Sample<'_> {
    /// Holds the check to what is expected.
    pub(crate) fn hold(&self) -> Result<(), Fault> {
        let said = self.check.said(self.text);
        if said.is(self.expected) {
            Ok(())
        } else {
            Err(Fault::Got(said))
        }
    }
}
