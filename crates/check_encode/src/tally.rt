//! How many tables of a list are written, and how many are refused.

use crate::fault::Fault;
use crate::sample::{Flag, Sample};
use crate::table::Table;
use lists::Stop;
use std::fmt;

/// How many bytes an output has at most.
const ROOM: usize = 16384;

/// The tables that are encoded with a flag.
#[derive(Clone, Copy, Debug, Default, PartialEq, Eq)]
struct Counts {
    written: u64,
    refused: u64,
}

impl Counts {
    fn add(&mut self, refusal: u8) {
        let count = if refusal == 0 {
            &mut self.written
        } else {
            &mut self.refused
        };
        *count = count.wrapping_add(1);
    }
}

impl fmt::Display for Counts {
    fn fmt<W: fmt::Write>(&self, f: &mut fmt::Formatter<W>) -> fmt::Result {
        let Counts { written, refused } = *self;
        write!(f, "written {written}, refused {refused}")
    }
}

#[derive(Clone, Copy, Debug, Default, PartialEq, Eq)]
pub(crate) struct Tally {
    records: u64,
    clear: Counts,
    set: Counts,
}

impl Tally {
    /// Holds the encoder to a record with each flag that it names, and counts the answer.
    fn add(
        &mut self,
        sample: Sample<'_>,
        table: &mut Table,
        output: &mut [u8; ROOM],
    ) -> Result<(), Fault> {
        sample.hold_flags()?;
        let words = table.fill(sample.said).ok_or(Fault::NoTable)?;
        let room = output.get_mut(..sample.room()).ok_or(Fault::NoRoom)?;
        for flag in Flag::ALL {
            if sample.names(flag) {
                sample.hold(flag, words, room)?;
                let counts = match flag {
                    Flag::Clear => &mut self.clear,
                    Flag::Set => &mut self.set,
                };
                counts.add(sample.refusal);
            }
        }
        Ok(())
    }
}

impl fmt::Display for Tally {
    fn fmt<W: fmt::Write>(&self, f: &mut fmt::Formatter<W>) -> fmt::Result {
        let Tally {
            records,
            clear,
            set,
        } = *self;
        writeln!(f, "records {records}")?;
        writeln!(f, "flag clear: {clear}")?;
        writeln!(f, "flag set: {set}")
    }
}

/// Holds our encoder to a list's records, up to the first that it does not answer as the list does.
pub(crate) fn of(list: &[u8]) -> Result<Tally, Stop<Fault>> {
    let mut table = Table::new();
    let mut output = lists::space::<ROOM>();
    let mut tally = Tally::default();
    let records = lists::go_through(list, |sample: Sample<'_>| {
        tally.add(sample, &mut table, &mut output)
    })?;
    tally.records = records;
    Ok(tally)
}
