//! The decoders that a record may name, and what they answer.

use crate::fault::Fault;
use answers::Told;

#[derive(Clone, Copy, Debug, PartialEq, Eq)]
pub(crate) enum Decoder {
    Resp2,
    Complete,
    Streaming,
}

impl Decoder {
    pub(crate) const ALL: [Decoder; 3] = [Decoder::Resp2, Decoder::Complete, Decoder::Streaming];

    /// The bit by which a record names the decoder.
    pub(crate) fn bit(self) -> u8 {
        match self {
            Decoder::Resp2 => 1,
            Decoder::Complete => 2,
            Decoder::Streaming => 4,
        }
    }

    /// One decode of `buffer`, its rows in `table`.
    pub(crate) fn told(self, buffer: &[u8], table: &mut [u64]) -> Told {
        Told::from(match self {
            Decoder::Resp2 => resp2::decode(buffer, table),
            Decoder::Complete => resp3::complete(buffer, table),
            Decoder::Streaming => resp3::streaming(buffer, table),
        })
    }
}

/// What a decode comes to. Not a Result: what goes with each is in other fields of the record.
#[derive(Clone, Copy, Debug, PartialEq, Eq)]
pub(crate) enum Outcome {
    Unfinished,
    Frame,
    Marker,
    Refused,
}

impl TryFrom<u8> for Outcome {
    type Error = Fault;

    fn try_from(code: u8) -> Result<Self, Fault> {
        match code {
            0 => Ok(Outcome::Unfinished),
            1 => Ok(Outcome::Frame),
            2 => Ok(Outcome::Marker),
            3 => Ok(Outcome::Refused),
            _ => Err(Fault::NoAnswer),
        }
    }
}
