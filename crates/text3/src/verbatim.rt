//! The formats of verbatim strings, apart from `word`, since one module has no function `format` beside a type `Format`.
ghost use Rattle.std.specs.Prelude.{◌≡◌};
ghost use Rattle.text3.specs.Words.{format_code};

/// The format of a verbatim string.
#[derive(Clone, Copy, Debug, PartialEq, Eq)]
pub enum Format {
    Text,
    Markdown,
}

impl Format {
    /// The number that a row has for it, 1 or 2.
    pub fn code(self) -> u64
        ensures { result ≡ format_code self }
    {
        self as u64 + 1
    }
}
