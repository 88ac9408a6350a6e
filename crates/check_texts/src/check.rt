//! The text checks, each by its letter.

use crate::said::Said;
use text::number;
use text3::{double, hello, word};

#[derive(Clone, Copy, Debug, PartialEq, Eq)]
pub(crate) enum Check {
    PlainLength,
    SignedLength { three: bool },
    Number,
    Double,
    Boolean,
    Format,
    Hello,
}

impl Check {
    pub(crate) fn from_letter(letter: u8) -> Option<Self> {
        match letter {
            b'p' => Some(Check::PlainLength),
            b's' => Some(Check::SignedLength { three: false }),
            b't' => Some(Check::SignedLength { three: true }),
            b'i' => Some(Check::Number),
            b'd' => Some(Check::Double),
            b'b' => Some(Check::Boolean),
            b'f' => Some(Check::Format),
            b'h' => Some(Check::Hello),
            _ => None,
        }
    }

    /// What the check says of a text. HELLO's has its H in front.
    pub(crate) fn said(self, bytes: &[u8]) -> Said {
        match self {
            Check::PlainLength => Said::from(number::plain_length(bytes)),
            Check::SignedLength { three } => Said::from(number::signed_length(bytes, three)),
            Check::Number => Said::from(number::number(bytes)),
            Check::Double => Said::from(double::double(bytes)),
            Check::Boolean => Said::from(word::boolean(bytes)),
            Check::Format => Said::from(word::format(bytes)),
            Check::Hello => match bytes {
                [b'H', line @ ..] => Said::from(hello::hello(line, 1)),
                _ => Said::Bad,
            },
        }
    }
}
