//! How many answers of each kind a list has.

use crate::decoder::{Decoder, Outcome};
use crate::fault::Fault;
use crate::sample::Sample;
use crate::table::Table;
use lists::Stop;
use std::fmt;

/// A decoder's answers.
#[derive(Clone, Copy, Debug, Default, PartialEq, Eq)]
struct Counts {
    unfinished: u64,
    frames: u64,
    markers: u64,
    refused: u64,
}

impl Counts {
    fn add(&mut self, outcome: Outcome) {
        let count = match outcome {
            Outcome::Unfinished => &mut self.unfinished,
            Outcome::Frame => &mut self.frames,
            Outcome::Marker => &mut self.markers,
            Outcome::Refused => &mut self.refused,
        };
        *count = count.wrapping_add(1);
    }
}

impl fmt::Display for Counts {
    fn fmt<W: fmt::Write>(&self, f: &mut fmt::Formatter<W>) -> fmt::Result {
        let Counts {
            unfinished,
            frames,
            markers,
            refused,
        } = *self;
        write!(
            f,
            "frames {frames}, markers {markers}, unfinished {unfinished}, refused {refused}"
        )
    }
}

#[derive(Clone, Copy, Debug, Default, PartialEq, Eq)]
pub(crate) struct Tally {
    records: u64,
    rows: u64,
    resp2: Counts,
    complete: Counts,
    streaming: Counts,
}

impl Tally {
    /// Holds each decoder that a record names to it, and counts the answer.
    fn add(&mut self, sample: Sample<'_>, table: &mut Table) -> Result<(), Fault> {
        let outcome = Outcome::try_from(sample.answer)?;
        for decoder in Decoder::ALL {
            if sample.names(decoder) {
                sample.hold(decoder, table)?;
                let counts = match decoder {
                    Decoder::Resp2 => &mut self.resp2,
                    Decoder::Complete => &mut self.complete,
                    Decoder::Streaming => &mut self.streaming,
                };
                counts.add(outcome);
            }
        }
        self.rows = self.rows.wrapping_add(u64::from(sample.used));
        Ok(())
    }
}

impl fmt::Display for Tally {
    fn fmt<W: fmt::Write>(&self, f: &mut fmt::Formatter<W>) -> fmt::Result {
        let Tally {
            records,
            rows,
            resp2,
            complete,
            streaming,
        } = *self;
        writeln!(f, "records {records}")?;
        writeln!(f, "rows {rows}")?;
        writeln!(f, "RESP2: {resp2}")?;
        writeln!(f, "complete: {complete}")?;
        writeln!(f, "streaming: {streaming}")
    }
}

/// Holds our decoders to a list's records, up to the first that they do not answer as the list does.
pub(crate) fn of(list: &[u8]) -> Result<Tally, Stop<Fault>> {
    let mut table = Table::new();
    let mut tally = Tally::default();
    let records = lists::go_through(list, |sample: Sample<'_>| tally.add(sample, &mut table))?;
    tally.records = records;
    Ok(tally)
}
