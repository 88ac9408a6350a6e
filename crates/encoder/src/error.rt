//! Why no bytes are written, and an answer as the numbers that callers of other languages know.
ghost use Rattle.std.specs.Prelude.{◌≡◌};
ghost use Rattle.meaning.specs.Encode.{unable};
ghost use Rattle.encoder.specs.Encodes.{number_of, needed_by, numbers_of, told_of_size};

/// Why no bytes are written (RULES 5.4).
#[derive(Clone, Copy, Debug, PartialEq, Eq)]
pub enum EncodeError {
    /// The output is too short: how many bytes are needed.
    ShortOutput(u64),
    /// The table's rows read as no frame.
    UnfitTable,
    /// The source is longer than 4,294,967,295 bytes.
    LongSource,
}

impl EncodeError {
    /// The number by which callers know it.
    pub fn number(self) -> u64
        ensures { result ≡ number_of self }
    {
        match self {
            EncodeError::ShortOutput(_) => 12,
            EncodeError::UnfitTable => 13,
            EncodeError::LongSource => 14,
        }
    }

    /// How many bytes an output needs that is too short; 0 with another error.
    pub fn needed(self) -> u64
        ensures { result ≡ needed_by self }
    {
        match self {
            EncodeError::ShortOutput(needed) => needed,
            _ => 0,
        }
    }
}

/// An answer as two numbers. refusal: 0 where there is none, else the error's number; bytes: those written or, where the output is too short, needed.
#[repr(C)]
#[derive(Clone, Copy, Debug, PartialEq, Eq)]
pub struct Told {
    pub refusal: u64,
    pub bytes: u64,
}

impl Told {
    /// A refusal by its number as it is, also one that no error has.
    pub fn refused(number: u64) -> Told
        ensures { result ≡ told_of_size (unable number) }
    {
        Told {
            refusal: number,
            bytes: 0,
        }
    }
}

impl From<Result<u64, EncodeError>> for Told {
    ghost from_gives = { λ r t. t ≡ numbers_of r };

    fn from(answer: Result<u64, EncodeError>) -> Told {
        match answer {
            Ok(bytes) => Told { refusal: 0, bytes },
            Err(error) => Told {
                refusal: error.number(),
                bytes: error.needed(),
            },
        }
    }
}
