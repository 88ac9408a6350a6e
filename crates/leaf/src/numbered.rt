//! The same leaves where any number stands for the kind, as a row's word 0 holds it.
ghost use Rattle.std.specs.Prelude.{◌≡◌, IfSome};
ghost use Rattle.meaning.specs.Kinds as spec;
ghost use Rattle.meaning.specs.Kinds.{resp3};
ghost use Rattle.meaning.specs.Frames.{text_line_p, length_p, takes_plain, absent, bulk_p};
ghost use Rattle.text.specs.Reads.{Gives};
ghost use Rattle.text.specs.Numbers.{count_p};
ghost use Rattle.leaf.specs.Numbered.{words_of};

use kinds::{Kind, Profile};
use refusal::Stop;
use text::Cursor;

/// Words 0 to 3 of a leaf's row.
#[derive(Clone, Copy, Debug, PartialEq, Eq)]
pub struct Words {
    pub kind: u64,
    pub w1: u64,
    pub w2: u64,
    pub w3: u64,
}

/// A line's text: words 1 and 2 are where it starts and ends.
#[tactic(auto, using(text::proofs::Chain::reading))]
#[inline(always)]
pub fn text_line<'a>(c: Cursor<'a>, kind: u64) -> Result<(Words, Cursor<'a>), Stop>
    ensures { Gives (text_line_p resp3 kind) words_of c.entry result }
{
    let from = c.at;
    let (text, next) = c.line()?;
    let words = Words {
        kind,
        w1: from as u64,
        w2: (from + text.len()) as u64,
        w3: 0,
    };
    Ok((words, next))
}

/// n bytes of text, and the two that follow it: words 1 and 2 are where the text starts and ends.
#[tactic(auto, using(text::proofs::Chain::reading))]
#[inline(always)]
pub fn bulk<'a>(c: Cursor<'a>, kind: u64, n: u64) -> Result<(Words, Cursor<'a>), Stop>
    ensures { Gives (bulk_p resp3 kind n) words_of c.entry result }
{
    let from = c.at;
    let (text, end) = c.skip(n)?;
    let (_, next) = end.skip(2)?;
    let words = Words {
        kind,
        w1: from as u64,
        w2: (from + text.len()) as u64,
        w3: 0,
    };
    Ok((words, next))
}

/// A bulk text behind a length of at most 18 digits. None: nothing is said.
#[tactic(auto, using(text::proofs::Chain::reading, crate::proofs::Programs::reads_length))]
#[inline(always)]
pub fn near_bulk<'a>(c: Cursor<'a>, kind: u64) -> Option<Result<(Words, Cursor<'a>), Stop>>
    ensures { IfSome result (λ r. (π : spec.Profile) → Gives (length_p π kind (bulk_p π kind)) words_of c.entry r) }
{
    let (n, text) = text::number::near_digits(c)?;
    Some(bulk(text, kind, n))
}

/// Whether it is the code of a kind whose length is plain.
#[tactic(auto, using(crate::proofs::Programs::known_plain))]
#[inline(always)]
fn takes_plain(code: u64) -> bool
    ensures { result ≡ takes_plain code }
{
    match Kind::from_code(code) {
        Some(kind) => crate::takes_plain(kind),
        None => false,
    }
}

/// The length of a sized kind; none where -1 stands.
#[inline(always)]
pub fn count<'a, P: Profile>(kind: u64, c: Cursor<'a>) -> Result<(Option<u64>, Cursor<'a>), Stop>
    ensures { Gives (count_p (takes_plain kind) P.profile.three) (λ n. n) c.entry result }
{
    text::number::length_line(c, takes_plain(kind), P::THREE)
}

/// What stands where a length is -1: Null in RESP2, a Marker of the kind in RESP3.
#[inline(always)]
pub fn absent<P: Profile>(kind: u64) -> Words
    ensures { words_of result ≡ absent P.profile kind }
{
    if P::THREE {
        Words {
            kind: Kind::Marker.code(),
            w1: 0,
            w2: 0,
            w3: kind,
        }
    } else {
        Words {
            kind: Kind::Null.code(),
            w1: 0,
            w2: 0,
            w3: 0,
        }
    }
}
