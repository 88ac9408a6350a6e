//! A frame's type byte and its first lines.
#![tactic(auto)]

ghost use Rattle.std.specs.Prelude.{◌≡◌, ℕ, false, eqb, Ok, IfOk, IfSome};
ghost use Rattle.meaning.specs.Prog.{Prog};
ghost use Rattle.meaning.specs.Kinds.{resp3, array_kind, attribute_kind, marker_kind};
ghost use Rattle.meaning.specs.Frames.{Step, length_p, holder_p, hello_p, head_p, type_p};
ghost use Rattle.kinds.specs.Codes.{code_of, coded};
ghost use Rattle.text.specs.declared.cursor.Cursor.{Cursor};
ghost use Rattle.text.specs.Reads.{Gives};
ghost use Rattle.leaf.specs.Leaves.{leaf_of};
ghost use Rattle.heads.specs.Steps.{step_of, array_of, counted_of, OfKind, sized_p};

use kinds::{Kind, Profile};
use leaf::{Leaf, absent, bulk, count, number, text_line};
use leaf3::{blank, boolean, chunk, double, verbatim};
use refusal::{Refusal, Stop};
use text::Cursor;
use text::number::{near_absent, near_digits};
use text3::hello::Greeting;

/// What a frame's first lines say.
#[derive(Clone, Copy, Debug, PartialEq, Eq)]
pub enum Head {
    /// A frame that holds no other, read.
    Leaf(Leaf),
    /// HELLO's line.
    Hello(Greeting),
    /// A kind with children, and the count on its line: of pairs for Map and Attribute, and else of frames.
    Holder(Kind, u64),
}

/// A leaf that was read, as a head.
#[inline(always)]
fn as_head<'a>(read: Result<(Leaf, Cursor<'a>), Stop>) -> Result<(Head, Cursor<'a>), Stop>
    ensures read { (p : Prog Step) (c : Cursor) → Gives p leaf_of c read.entry → Gives p step_of c result }
    ensures kind { (k : ℕ) → IfOk result (λ r. OfKind k r.0) }
{
    let (leaf, next) = read?;
    Ok((Head::Leaf(leaf), next))
}

/// A text of n bytes, behind its length.
#[tactic(auto, using(text::proofs::Chain::reading))]
#[inline(always)]
fn text<'a>(c: Cursor<'a>, kind: Kind, n: u64) -> Result<(Leaf, Cursor<'a>), Stop>
    ensures { Gives (sized_p (code_of kind) n) leaf_of c.entry result }
{
    match kind {
        Kind::Verbatim => verbatim(c, n),
        Kind::ChunkedString => chunk(c, n),
        _ => bulk(c, kind, n),
    }
}

/// A length and the text that it is of, or what stands where the length is -1.
#[tactic(auto, using(text::proofs::Chain::reading, leaf::proofs::Programs::reads_length))]
#[inline(always)]
fn sized<'a, P: Profile>(c: Cursor<'a>, kind: Kind) -> Result<(Leaf, Cursor<'a>), Stop>
    ensures { Gives (length_p P.profile (code_of kind) (sized_p (code_of kind))) leaf_of c.entry result }
{
    let (length, next) = count::<P>(kind, c)?;
    match length {
        Some(n) => text(next, kind, n),
        None => Ok((absent::<P>(kind), next)),
    }
}

/// The count of a kind with children, or what stands where it is -1.
#[tactic(auto, using(text::proofs::Chain::reading, leaf::proofs::Programs::reads_length))]
#[inline(always)]
fn holder<'a, P: Profile>(c: Cursor<'a>, kind: Kind) -> Result<(Head, Cursor<'a>), Stop>
    ensures read { Gives (holder_p P.profile (code_of kind)) step_of c.entry result }
    ensures kind { IfOk result (λ r. OfKind (code_of kind) r.0) }
{
    let (length, next) = count::<P>(kind, c)?;
    match length {
        Some(n) => Ok((Head::Holder(kind, n), next)),
        None => Ok((Head::Leaf(absent::<P>(kind)), next)),
    }
}

/// HELLO's line, behind its H.
#[inline(always)]
fn greeting<'a>(c: Cursor<'a>) -> Result<(Head, Cursor<'a>), Stop>
    ensures read { Gives (hello_p resp3) step_of c.entry result }
    ensures kind { (k : ℕ) → IfOk result (λ r. OfKind k r.0) }
{
    let (greeting, next) = leaf3::hello(c)?;
    Ok((Head::Hello(greeting), next))
}

/// A frame of one line, of a kind that RESP3 alone has, behind its type byte. None: nothing is said.
#[tactic(auto, unfolding(meaning::specs::Frames::head_p))]
#[inline(always)]
fn near_word<'a, P: Profile>(
    kind: Option<Kind>,
    c: Cursor<'a>,
) -> Option<Result<(Leaf, Cursor<'a>), Stop>>
    ensures plain { IfSome result (λ r. eqb (coded kind) attribute_kind ≡ false) }
    ensures unmarked { IfSome result (λ r. IfOk r (λ x. eqb (code_of x.0.kind) marker_kind ≡ false)) }
    ensures read { IfSome result (λ r. Gives (head_p P.profile (coded kind)) leaf_of c.entry r) }
{
    if !P::THREE {
        return None;
    }
    match kind {
        Some(Kind::Null) => Some(blank(c, Kind::Null)),
        Some(Kind::Boolean) => Some(boolean(c)),
        Some(Kind::Double) => Some(double(c)),
        _ => None,
    }
}

/// A frame of one line, behind its type byte. None: nothing is said.
#[tactic(auto, unfolding(meaning::specs::Frames::head_p))]
#[inline(always)]
fn near_line<'a, P: Profile>(
    kind: Option<Kind>,
    c: Cursor<'a>,
) -> Option<Result<(Leaf, Cursor<'a>), Stop>>
    ensures plain { IfSome result (λ r. eqb (coded kind) attribute_kind ≡ false) }
    ensures unmarked { IfSome result (λ r. IfOk r (λ x. eqb (code_of x.0.kind) marker_kind ≡ false)) }
    ensures read { IfSome result (λ r. Gives (head_p P.profile (coded kind)) leaf_of c.entry r) }
{
    match kind {
        Some(Kind::SimpleString | Kind::SimpleError | Kind::BigNumber) => Some(text_line(c, kind?)),
        _ => near_word::<P>(kind, c),
    }
}

/// RESP2's Null in the place of a bulk string or an array, behind its type byte. None: nothing is said.
#[tactic(auto, using(text::proofs::Chain::reading, leaf::proofs::Programs::reads_length))]
#[inline(always)]
fn near_null<'a, P: Profile>(
    kind: Option<Kind>,
    c: Cursor<'a>,
) -> Option<Result<(Leaf, Cursor<'a>), Stop>>
    ensures plain { IfSome result (λ r. eqb (coded kind) attribute_kind ≡ false) }
    ensures unmarked { IfSome result (λ r. IfOk r (λ x. eqb (code_of x.0.kind) marker_kind ≡ false)) }
    ensures read { IfSome result (λ r. Gives (head_p P.profile (coded kind)) leaf_of c.entry r) }
{
    if P::THREE {
        return None;
    }
    match kind? {
        Kind::BlobString | Kind::Array => {
            let next = near_absent(c)?;
            let leaf = Leaf {
                kind: Kind::Null,
                w1: 0,
                w2: 0,
                w3: 0,
            };
            Some(Ok((leaf, next)))
        }
        _ => None,
    }
}

/// A text of n bytes, behind its length, of a kind that the protocol has: beside `text`, so that what only RESP3 has is no part of RESP2's code. None: nothing is said.
#[inline(always)]
fn near_sized<'a, P: Profile>(
    kind: Kind,
    c: Cursor<'a>,
    n: u64,
) -> Option<Result<(Leaf, Cursor<'a>), Stop>>
    ensures unmarked { IfSome result (λ r. IfOk r (λ x. eqb (code_of x.0.kind) marker_kind ≡ false)) }
    ensures read { IfSome result (λ r. Gives (sized_p (code_of kind) n) leaf_of c.entry r) }
{
    match kind {
        Kind::BlobString | Kind::BlobError => Some(bulk(c, kind, n)),
        Kind::Verbatim if P::THREE => Some(verbatim(c, n)),
        Kind::ChunkedString if P::THREE => Some(chunk(c, n)),
        _ => None,
    }
}

/// A leaf, behind its type byte, or what stops it: a Number, a text behind a short length, RESP2's Null, or what `near_line` reads; with no call that answers in memory, so that the loop over a holder's frames keeps its state in registers. None: nothing is said.
#[tactic(auto, using(text::proofs::Chain::reading, leaf::proofs::Programs::reads_number, leaf::proofs::Programs::reads_length), unfolding(meaning::specs::Frames::head_p))]
#[inline(always)]
pub fn near_head<'a, P: Profile>(
    kind: Option<Kind>,
    c: Cursor<'a>,
) -> Option<Result<(Leaf, Cursor<'a>), Stop>>
    ensures plain { IfSome result (λ r. eqb (coded kind) attribute_kind ≡ false) }
    ensures unmarked { IfSome result (λ r. IfOk r (λ x. eqb (code_of x.0.kind) marker_kind ≡ false)) }
    ensures read { IfSome result (λ r. Gives (head_p P.profile (coded kind)) leaf_of c.entry r) }
{
    match kind {
        Some(Kind::Number) => return Some(number(c)),
        Some(Kind::BlobString | Kind::BlobError | Kind::Verbatim | Kind::ChunkedString) => {
            if let Some((n, next)) = near_digits(c) {
                return near_sized::<P>(kind?, next, n);
            }
        }
        Some(Kind::Array) => {}
        _ => return near_line::<P>(kind, c),
    }
    near_null::<P>(kind, c)
}

/// The count of an array that the next bytes tell, behind its type byte. None: nothing is said.
#[tactic(auto, using(text::proofs::Chain::reading, leaf::proofs::Programs::reads_length), unfolding(meaning::specs::Frames::head_p))]
#[inline(always)]
pub fn near_array<'a, P: Profile>(kind: Option<Kind>, c: Cursor<'a>) -> Option<(u64, Cursor<'a>)>
    ensures plain { IfSome result (λ r. eqb (coded kind) attribute_kind ≡ false) }
    ensures read { IfSome result (λ r. Gives (head_p P.profile (coded kind)) array_of c.entry (Ok r)) }
    ensures kind { IfSome result (λ r. array_kind ≡ coded kind) }
{
    match kind {
        Some(Kind::Array) => near_digits(c),
        _ => None,
    }
}

/// The kind of a holder and its count that the next bytes tell, behind its type byte. None: nothing is said.
#[tactic(auto, using(text::proofs::Chain::reading, leaf::proofs::Programs::reads_length), unfolding(meaning::specs::Frames::head_p))]
#[inline(always)]
pub fn near_holder<'a, P: Profile>(
    kind: Option<Kind>,
    c: Cursor<'a>,
) -> Option<((Kind, u64), Cursor<'a>)>
    ensures read { IfSome result (λ r. Gives (head_p P.profile (coded kind)) counted_of c.entry (Ok r)) }
    ensures kind { IfSome result (λ r. code_of r.0.0 ≡ coded kind) }
{
    match kind {
        Some(Kind::Array | Kind::Map | Kind::Set | Kind::Push | Kind::Attribute) => {
            let (n, next) = near_digits(c)?;
            Some(((kind?, n), next))
        }
        _ => None,
    }
}

/// A frame's first lines, behind its type byte; none: the protocol has no such byte. In a function of its own, so that the stack that its reads take is taken once, and not by each frame that stands in another.
#[tactic(auto, using(text::proofs::Chain::reads_refuse), unfolding(meaning::specs::Frames::head_p))]
#[inline(never)]
pub fn head_of<'a, P: Profile>(
    kind: Option<Kind>,
    c: Cursor<'a>,
) -> Result<(Head, Cursor<'a>), Stop>
    ensures read { Gives (head_p P.profile (coded kind)) step_of c.entry result }
    ensures kind { IfOk result (λ r. OfKind (coded kind) r.0) }
{
    let Some(kind) = kind else {
        return Err(Stop::Refused(Refusal::Type, c.at));
    };
    match kind {
        Kind::Number => as_head(number(c)),
        // The kind as a constant: most frames are bulk strings, and what their kind decides is then decided.
        Kind::BlobString => as_head(sized::<P>(c, Kind::BlobString)),
        Kind::BlobError | Kind::Verbatim | Kind::ChunkedString => as_head(sized::<P>(c, kind)),
        Kind::SimpleString | Kind::SimpleError | Kind::BigNumber => as_head(text_line(c, kind)),
        Kind::Array | Kind::Map | Kind::Set | Kind::Push | Kind::Attribute => holder::<P>(c, kind),
        Kind::Null | Kind::EndStream => as_head(blank(c, kind)),
        Kind::Boolean => as_head(boolean(c)),
        Kind::Double => as_head(double(c)),
        Kind::Hello => greeting(c),
        Kind::Marker | Kind::User | Kind::Password | Kind::Name => {
            Err(Stop::Refused(Refusal::Type, c.at))
        }
    }
}

/// A frame's type byte and its first lines.
#[tactic(auto, using(text::proofs::Chain::reading))]
#[inline(always)]
pub fn read_head<'a, P: Profile>(c: Cursor<'a>) -> Result<(Head, Cursor<'a>), Stop>
    ensures { Gives (type_p P.profile (head_p P.profile)) step_of c.entry result }
{
    let (b, next) = c.byte()?;
    head_of::<P>(P::kind(b), next)
}
