//! The kind of a type byte that is a leaf's.
ghost use Rattle.std.specs.Prelude.{◌≡◌};
ghost use Rattle.meaning.specs.Kinds.{resp3};
ghost use Rattle.kinds.specs.Codes.{coded};
ghost use Rattle.kinds.specs.Entries.{lone_kind, leaf_kind};

use crate::kind::Kind;

/// The kind of a type byte that is a leaf's in both protocols; of any other byte none.
pub fn lone_kind(b: u8) -> Option<Kind>
    ensures { coded result ≡ lone_kind b }
{
    match b {
        b'+' => Some(Kind::SimpleString),
        b'-' => Some(Kind::SimpleError),
        b':' => Some(Kind::Number),
        b'$' => Some(Kind::BlobString),
        _ => None,
    }
}

/// The same of a leaf's in RESP3.
pub fn leaf_kind(b: u8) -> Option<Kind>
    ensures { coded result ≡ leaf_kind resp3 b }
{
    match b {
        b'_' => Some(Kind::Null),
        b'#' => Some(Kind::Boolean),
        b',' => Some(Kind::Double),
        b'(' => Some(Kind::BigNumber),
        b'!' => Some(Kind::BlobError),
        b'=' => Some(Kind::Verbatim),
        b';' => Some(Kind::ChunkedString),
        b'.' => Some(Kind::EndStream),
        _ => lone_kind(b),
    }
}
