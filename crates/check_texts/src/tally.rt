//! How many texts of a list each check has.

use crate::check::Check;
use crate::sample::{Fault, Sample};
use lists::Stop;
use std::fmt;

#[derive(Clone, Copy, Debug, Default, PartialEq, Eq)]
pub(crate) struct Tally {
    plain_lengths: u64,
    signed_lengths2: u64,
    signed_lengths3: u64,
    numbers: u64,
    doubles: u64,
    booleans: u64,
    formats: u64,
    hellos: u64,
}

impl Tally {
    /// Holds a record's check to it, and counts it.
    fn add(&mut self, sample: Sample<'_>) -> Result<(), Fault> {
        sample.hold()?;
        let count = match sample.check {
            Check::PlainLength => &mut self.plain_lengths,
            Check::SignedLength { three: false } => &mut self.signed_lengths2,
            Check::SignedLength { three: true } => &mut self.signed_lengths3,
            Check::Number => &mut self.numbers,
            Check::Double => &mut self.doubles,
            Check::Boolean => &mut self.booleans,
            Check::Format => &mut self.formats,
            Check::Hello => &mut self.hellos,
        };
        *count = count.wrapping_add(1);
        Ok(())
    }
}

/// A line for each letter.
impl fmt::Display for Tally {
    fn fmt<W: fmt::Write>(&self, f: &mut fmt::Formatter<W>) -> fmt::Result {
        let Tally {
            plain_lengths,
            signed_lengths2,
            signed_lengths3,
            numbers,
            doubles,
            booleans,
            formats,
            hellos,
        } = *self;
        writeln!(f, "p {plain_lengths}")?;
        writeln!(f, "s {signed_lengths2}")?;
        writeln!(f, "t {signed_lengths3}")?;
        writeln!(f, "i {numbers}")?;
        writeln!(f, "d {doubles}")?;
        writeln!(f, "b {booleans}")?;
        writeln!(f, "f {formats}")?;
        writeln!(f, "h {hellos}")
    }
}

/// Holds the checks to a list's records, up to the first that is not as expected.
pub(crate) fn of(list: &[u8]) -> Result<Tally, Stop<Fault>> {
    let mut tally = Tally::default();
    let _records = lists::go_through(list, |sample: Sample<'_>| tally.add(sample))?;
    Ok(tally)
}
