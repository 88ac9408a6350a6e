//! A number held to the list's.
ghost use Rattle.std.specs.Prelude.{◌≡◌, ◌≢◌, MatchResult, eqb};

use std::{fmt, io};

/// A number of ours that is another in the list.
#[derive(Clone, Copy, Debug, PartialEq, Eq)]
pub struct Difference {
    /// what the number says
    pub what: &'static str,
    /// the number that we have
    pub ours: u64,
    /// the number that the list has
    pub theirs: u64,
}

impl fmt::Display for Difference {
    fn fmt<W: fmt::Write>(&self, f: &mut fmt::Formatter<W>) -> fmt::Result {
        let Difference { what, ours, theirs } = *self;
        write!(f, "{what} {ours}, the list's {theirs}")
    }
}

/// Holds our number to the list's: an error that names both where they differ.
pub fn same(what: &'static str, ours: u64, theirs: u64) -> Result<(), Difference>
    ensures { MatchResult result (λ _. ours ≡ theirs) (λ e. (ours ≢ theirs) × (e.what.now ≡ what.now) × (e.ours ≡ ours) × (e.theirs ≡ theirs)) }
{
    if ours == theirs {
        Ok(())
    } else {
        Err(Difference { what, ours, theirs })
    }
}

/// Whether both numbers are equal. Where they are not, both are printed behind what they say, any bytes.
pub fn is_same(rt: &impl Print, what: &[u8], ours: u64, theirs: u64) -> bool
    ensures { result ≡ eqb ours theirs }
{
    let same = ours == theirs;
    if !same {
        // the answer stands whether it could be printed or not
        let _ = print_both(rt, what, ours, theirs);
    }
    same
}

fn print_both(rt: &impl Print, what: &[u8], ours: u64, theirs: u64) -> io::Result<()> {
    rt.write_all(what)?;
    print!(rt; "{ours}, the list's {theirs}")
}
