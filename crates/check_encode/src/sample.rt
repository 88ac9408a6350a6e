//! A record of the list: a table, and what the encoder makes of it.
ghost use Rattle.std.specs.Prelude.{◌≡◌, ◌+◌, ◌≤◌, ◌<◌, length, IfSome};

use crate::fault::Fault;
use crate::output;
use encoder::Told;
use lists::{Record, one, same, two};

/// What an output too short is refused with.
const SHORT: u64 = 12;

/// How many bytes more than are needed a longer output has, and how many are watched behind what is lent.
const SPARE: usize = 9;

/// Whether integers are written as bulk strings.
#[derive(Clone, Copy, Debug, PartialEq, Eq)]
pub(crate) enum Flag {
    Clear,
    Set,
}

impl Flag {
    pub(crate) const ALL: [Flag; 2] = [Flag::Clear, Flag::Set];

    /// The bit by which a record names the flag.
    fn bit(self) -> u8 {
        match self {
            Flag::Clear => 1,
            Flag::Set => 2,
        }
    }
}

#[derive(Clone, Copy)]
pub(crate) struct Sample<'a> {
    flags: u8,
    /// 0 where the table is written
    pub(crate) refusal: u8,
    source: &'a [u8],
    /// the bytes that say the table
    pub(crate) said: &'a [u8],
    written: &'a [u8],
}

/// The record at the front of a list and what stands behind it; none where no whole record is.
fn parsed(list: &[u8]) -> Option<(Sample<'_>, &[u8])>
    ensures { IfSome result (λ p. length p.1.now < length list.now) }
{
    let (n, rest) = two(list)?;
    let (m, rest) = two(rest)?;
    let (flags, rest) = one(rest)?;
    let (refusal, rest) = one(rest)?;
    let (k, rest) = two(rest)?;
    let (source, rest) = rest.split_at_checked(usize::from(n))?;
    let (said, rest) = rest.split_at_checked(usize::from(m))?;
    let (written, rest) = rest.split_at_checked(usize::from(k))?;
    Some((
        Sample {
            flags,
            refusal,
            source,
            said,
            written,
        },
        rest,
    ))
}

impl<'a> Record<'a, Fault> for Sample<'a> {
    fn parse(list: &'a [u8]) -> Result<(Self, &'a [u8]), Fault> {
        parsed(list).ok_or(Fault::NotWhole)
    }
}

impl Sample<'_> {
    /// The record's flags are one or both.
    pub(crate) fn hold_flags(&self) -> Result<(), Fault> {
        match self.flags {
            0 => Err(Fault::NoFlag),
            1..=3 => Ok(()),
            _ => Err(Fault::NoSuchFlag),
        }
    }

    /// Whether the record names the flag.
    pub(crate) fn names(&self, flag: Flag) -> bool {
        self.flags & flag.bit() != 0
    }

    /// How many bytes there must be room for.
    pub(crate) fn room(&self) -> usize
        ensures { result ≡ length self.now.written.now + 18 }
    {
        self.written.len() + 2 * SPARE
    }

    /// Holds what the encoder told to a refusal, and to as many bytes as the record has.
    fn hold_told(&self, told: Told, refusal: u64) -> Result<(), Fault> {
        same("refusal", told.refusal, refusal)?;
        same("bytes", told.bytes, self.written.len() as u64)?;
        Ok(())
    }

    /// Holds an encode into the first bytes of `output` to the record, and to leave what stands past its bytes.
    fn hold_encode(
        &self,
        flag: Flag,
        table: &[u64],
        output: &mut [u8],
        lent: usize,
    ) -> Result<(), Fault>
        requires { lent ≤ length output.old }
    {
        output::mark(output);
        let told = Told::from(encoder::encode(
            self.source,
            table,
            flag == Flag::Set,
            &mut output[..lent],
        ));
        if lent < self.written.len() {
            self.hold_told(told, SHORT)?;
            return output::hold(output, &[]);
        }
        self.hold_told(told, u64::from(self.refusal))?;
        output::hold(output, self.written)
    }

    /// Holds the length and the encodes of a table to the record: into an output one byte short, exactly long enough, and
    /// longer. A refused table has no bytes: its outputs are empty, and longer.
    pub(crate) fn hold(&self, flag: Flag, table: &[u64], room: &mut [u8]) -> Result<(), Fault>
        requires { length self.now.written.now + 18 ≤ length room.old }
    {
        let n = self.written.len();
        let told = Told::from(encoder::length(self.source, table, flag == Flag::Set));
        self.hold_told(told, u64::from(self.refusal))?;
        for lent in [n.saturating_sub(1), n, n + SPARE] {
            self.hold_encode(flag, table, &mut room[..lent + SPARE], lent)?;
        }
        Ok(())
    }
}
