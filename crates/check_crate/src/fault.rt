//! Why a record is not as it should be.

use lists::Difference;
use std::fmt;

#[derive(Clone, Copy, Debug, PartialEq, Eq)]
pub(crate) enum Fault {
    /// no whole record is there
    NotWhole,
    /// the record has no answer that a decoder gives
    NoAnswer,
    /// more rows are to be lent than a table has; no words say so
    NoTable,
    /// a number of a decoder's answer is another than the list's
    Number(Difference),
    /// a refusal that the list does not allow, or none where it asks for one
    Refusal(u64),
    /// the row that is another than the list's
    Row(usize),
    /// the word past the rows that is not as it was
    Word(usize),
}

impl From<Difference> for Fault {
    fn from(difference: Difference) -> Self {
        Fault::Number(difference)
    }
}

impl fmt::Display for Fault {
    fn fmt<W: fmt::Write>(&self, f: &mut fmt::Formatter<W>) -> fmt::Result {
        match *self {
            Fault::NotWhole => write!(f, "not whole"),
            Fault::NoAnswer => write!(f, "no answer"),
            Fault::NoTable => Ok(()),
            Fault::Number(difference) => write!(f, "{difference}"),
            Fault::Refusal(number) => write!(f, "refusal {number}"),
            Fault::Row(row) => write!(f, "row {row}"),
            Fault::Word(word) => write!(f, "changed word {word}"),
        }
    }
}
