//! A record of the list: a buffer, and what the decoders that it names answer.
ghost use Rattle.std.specs.Prelude.{◌<◌, length, IfOk, IfSome};

use crate::decoder::Decoder;
use crate::fault::Fault;
use crate::table::{ROW, Table};
use answers::Told;
use lists::{Record, one, same, two};

#[derive(Clone, Copy)]
pub(crate) struct Sample<'a> {
    decoders: u8,
    /// how many rows are lent
    lent: u8,
    /// the answer's code
    pub(crate) answer: u8,
    /// the refusals that the answer may be, a bit each
    refusals: u16,
    consumed: u16,
    /// how many rows are used
    pub(crate) used: u16,
    buffer: &'a [u8],
    /// the rows that are used
    rows: &'a [u8],
}

/// The record at the front of a list and what stands behind it; none where no whole record is.
fn parsed(list: &[u8]) -> Option<(Sample<'_>, &[u8])>
    ensures { IfSome result (λ p. length p.1.now < length list.now) }
{
    let (n, rest) = two(list)?;
    let (decoders, rest) = one(rest)?;
    let (lent, rest) = one(rest)?;
    let (answer, rest) = one(rest)?;
    let (refusals, rest) = two(rest)?;
    let (consumed, rest) = two(rest)?;
    let (used, rest) = two(rest)?;
    let (buffer, rest) = rest.split_at_checked(usize::from(n))?;
    let (rows, rest) = rest.split_at_checked(ROW * usize::from(used))?;
    let sample = Sample {
        decoders,
        lent,
        answer,
        refusals,
        consumed,
        used,
        buffer,
        rows,
    };
    Some((sample, rest))
}

impl<'a> Record<'a, Fault> for Sample<'a> {
    fn parse(list: &'a [u8]) -> Result<(Self, &'a [u8]), Fault> {
        parsed(list).ok_or(Fault::NotWhole)
    }
}

impl Sample<'_> {
    /// Whether the record names the decoder.
    pub(crate) fn names(&self, decoder: Decoder) -> bool {
        self.decoders & decoder.bit() != 0
    }

    /// Whether the record allows the refusal, which is 0 where an answer is none.
    fn allows(&self, refusal: u64) -> bool {
        refusal <= 11 && (self.refusals >> refusal) & 1 == 1
    }

    /// Holds what a decoder told to the record's answer.
    fn hold_told(&self, told: Told) -> Result<(), Fault> {
        same("answer", told.answer, u64::from(self.answer))?;
        if !self.allows(told.refusal) {
            return Err(Fault::Refusal(told.refusal));
        }
        same("bytes consumed", told.consumed, u64::from(self.consumed))?;
        same("rows", told.rows, u64::from(self.used))?;
        Ok(())
    }

    /// Holds a decoder to the record's answer and its rows, and `table`, which is lent to it, to have nothing else written.
    pub(crate) fn hold(&self, decoder: Decoder, table: &mut Table) -> Result<(), Fault> {
        table.mark();
        self.hold_told(decoder.told(self.buffer, table.lend(self.lent)?))?;
        table.hold(self.rows, self.used)
    }
}
