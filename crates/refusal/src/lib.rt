//! Why a decode is refused, and what stops a read.
#![tactic(auto)]

ghost use Rattle.std.specs.Prelude.{◌≡◌};
ghost use Rattle.refusal.specs.Numbers.{number_of, Names};
ghost use Rattle.refusal.specs.Words.{words_of};

use std::error::Error;
use std::fmt;

/// Why bytes, or a table's rows, are refused (RULES 3.4).
#[derive(Clone, Copy, Debug, PartialEq, Eq)]
pub enum Refusal {
    /// A type byte that the protocol does not have.
    Type,
    /// The text of a length.
    Length,
    /// The text of a Number, a Double or a Boolean.
    Text,
    /// A Verbatim string shorter than four bytes, or of a format that is none.
    Format,
    /// A HELLO line.
    Hello,
    /// A marker where none may stand.
    Marker,
    /// An attribute directly after an attribute.
    Attribute,
    /// A key or a member of a kind that may be none.
    Key,
    /// An attribute on a frame that may carry none.
    Carrier,
    /// More frames in one another than are allowed.
    Depth,
    /// More rows than the table has.
    Rows,
}

impl Refusal {
    /// The number by which callers know it, 1 to 11.
    #[inline(always)]
    pub fn number(self) -> u64
        ensures { result ≡ number_of self }
    {
        self as u64 + 1
    }

    /// What it means, in words.
    pub fn words(self) -> &'static str
        ensures { result.now ≡ words_of self }
    {
        match self {
            Refusal::Type => "type byte unknown to the protocol",
            Refusal::Length => "bad length text",
            Refusal::Text => "bad Number, Double or Boolean text",
            Refusal::Format => "Verbatim shorter than 4 bytes, or its format not txt or mkd",
            Refusal::Hello => "bad Hello line",
            Refusal::Marker => "streaming marker that is not allowed here",
            Refusal::Attribute => "attribute directly after an attribute",
            Refusal::Key => "Map or attribute key, or Set member, that is not allowed",
            Refusal::Carrier => "attribute on a frame that cannot carry one",
            Refusal::Depth => "more than 32 frames one inside another",
            Refusal::Rows => "more rows needed than the table has",
        }
    }
}

impl fmt::Display for Refusal {
    fn fmt<W: fmt::Write>(&self, f: &mut fmt::Formatter<W>) -> fmt::Result {
        f.write_str(self.words())
    }
}

impl Error for Refusal {}

/// A number that no refusal has.
#[derive(Clone, Copy, Debug, PartialEq, Eq)]
pub struct UnknownNumber(pub u64);

impl TryFrom<u64> for Refusal {
    type Error = UnknownNumber;

    ghost try_from_gives = { Names };

    fn try_from(number: u64) -> Result<Self, UnknownNumber> {
        match number {
            1 => Ok(Refusal::Type),
            2 => Ok(Refusal::Length),
            3 => Ok(Refusal::Text),
            4 => Ok(Refusal::Format),
            5 => Ok(Refusal::Hello),
            6 => Ok(Refusal::Marker),
            7 => Ok(Refusal::Attribute),
            8 => Ok(Refusal::Key),
            9 => Ok(Refusal::Carrier),
            10 => Ok(Refusal::Depth),
            11 => Ok(Refusal::Rows),
            _ => Err(UnknownNumber(number)),
        }
    }
}

impl fmt::Display for UnknownNumber {
    fn fmt<W: fmt::Write>(&self, f: &mut fmt::Formatter<W>) -> fmt::Result {
        write!(f, "no refusal has number {}", self.0)
    }
}

impl Error for UnknownNumber {}

/// What stops a read. An error with two cases, and no Option inside a Result: both end a read, so that one `?` serves.
#[derive(Clone, Copy, Debug, PartialEq, Eq)]
pub enum Stop {
    /// Bytes are missing: more of them may make it a frame.
    Unfinished,
    /// Why it is refused, and the place behind the bytes that settled it.
    Refused(Refusal, usize),
}

impl fmt::Display for Stop {
    fn fmt<W: fmt::Write>(&self, f: &mut fmt::Formatter<W>) -> fmt::Result {
        match self {
            Stop::Unfinished => f.write_str("bytes are missing"),
            Stop::Refused(refusal, at) => write!(f, "{refusal}, at byte {at}"),
        }
    }
}

impl Error for Stop {}

#[cfg(test)]
mod tests {
    use super::*;
    use std::test::Fail;

    #[test]
    fn says_why(rt: HostRuntime) -> Result<(), Fail> {
        let alloc = rt.alloc();
        let stop = Stop::Refused(Refusal::Rows, 7);
        let refused = format!(in alloc; "{stop}")?;
        assert_eq!(rt;
            refused.as_str(),
            "more rows needed than the table has, at byte 7"
        );
        let unfinished = format!(in alloc; "{}", Stop::Unfinished)?;
        assert_eq!(rt; unfinished.as_str(), "bytes are missing");
        let unknown = format!(in alloc; "{}", UnknownNumber(12))?;
        assert_eq!(rt; unknown.as_str(), "no refusal has number 12");
        Ok(())
    }
}
