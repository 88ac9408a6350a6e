//! Why a record is not as it should be.

use lists::Difference;
use std::fmt;

#[derive(Clone, Copy, Debug, PartialEq, Eq)]
pub(crate) enum Fault {
    /// no whole record is there
    NotWhole,
    /// the record names no flag
    NoFlag,
    /// the record names a flag that there is not
    NoSuchFlag,
    /// the record's bytes say no table, or one too large
    NoTable,
    /// more bytes are to be written than there is room for
    NoRoom,
    /// a number of the encoder's answer is another than the list's
    Number(Difference),
    /// the byte of the output that is another than the list's, or past them not as it was
    Byte(usize),
}

impl From<Difference> for Fault {
    fn from(difference: Difference) -> Self {
        Fault::Number(difference)
    }
}

impl fmt::Display for Fault {
    fn fmt<W: fmt::Write>(&self, f: &mut fmt::Formatter<W>) -> fmt::Result {
        match *self {
            Fault::NotWhole => write!(f, "not whole"),
            Fault::NoFlag => write!(f, "no flag"),
            Fault::NoSuchFlag => write!(f, "no such flag"),
            Fault::NoTable => write!(f, "no table"),
            Fault::NoRoom => write!(f, "no room"),
            Fault::Number(difference) => write!(f, "{difference}"),
            Fault::Byte(place) => write!(f, "byte {place}"),
        }
    }
}
