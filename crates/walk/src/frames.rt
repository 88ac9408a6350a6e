//! A frame, the frames beneath a holder, and an attribute with its frame: they call one another, and the depth that is left falls. Where WRITE is false a walk only says what it would say.
ghost use Rattle.std.specs.Prelude.{◌≡◌, ◌+◌, ◌*◌, ◌<◌, ◌||◌, ◌&&◌, not, ltb, eqb};
ghost use Rattle.meaning.specs.Choice.{pick};
ghost use Rattle.meaning.specs.Kinds.{may_key, may_carry, attribute_kind, marker_kind};
ghost use Rattle.meaning.specs.Frames.{frame_p, body_p, rest_p, holder};
ghost use Rattle.kinds.specs.Codes.{code_of, coded};
ghost use Rattle.heads.specs.Steps.{frames_of};
ghost use Rattle.walk.specs.Walks.{Walks};
ghost use Rattle.walk.specs.Keys.{in_pairs, is_judged};
ghost use Rattle.walk.specs.Tops.{Known, typed_p};

use crate::begin::{Begun, begin_near};
use crate::walked::{Room, Walked, put, put_leaf};
use heads::{near_array, near_head};
use kinds::{Kind, Profile};
use refusal::{Refusal, Stop};
use rows::Row;
use text::Cursor;

/// Whether it is an attribute's kind. RESP2 has none, so that what is done of one is no part of its code.
#[inline(always)]
pub(crate) fn is_attribute<P: Profile>(kind: Option<Kind>) -> bool
    requires { Known P.profile (coded kind) }
    ensures { result ≡ eqb (coded kind) attribute_kind }
{
    P::THREE && kind == Some(Kind::Attribute)
}

/// Whether it is a marker's kind.
#[inline(always)]
pub(crate) fn is_marker(kind: Kind) -> bool
    ensures { result ≡ eqb (code_of kind) marker_kind }
{
    kind == Kind::Marker
}

/// Whether a holder counts pairs.
pub(crate) fn in_pairs(kind: Kind) -> bool
    ensures { result ≡ in_pairs (code_of kind) }
{
    match kind {
        Kind::Map | Kind::Attribute => true,
        _ => false,
    }
}

/// Whether a holder's keys or members are judged.
fn is_judged(kind: Kind) -> bool
    ensures { result ≡ is_judged (code_of kind) }
{
    match kind {
        Kind::Map | Kind::Attribute | Kind::Set => true,
        _ => false,
    }
}

/// The same of a holder that a protocol has.
#[inline(always)]
fn has_pairs<P: Profile>(kind: Kind) -> bool
    requires { Known P.profile (code_of kind) }
    ensures { result ≡ in_pairs (code_of kind) }
{
    P::THREE && in_pairs(kind)
}

#[inline(always)]
fn has_judged<P: Profile>(kind: Kind) -> bool
    requires { Known P.profile (code_of kind) }
    ensures { result ≡ is_judged (code_of kind) }
{
    P::THREE && is_judged(kind)
}

/// Whether frames are left after so many. Pairs are counted as they are: no sum of two counts is formed.
fn is_more(pairs: bool, read: u64, n: u64) -> bool
    ensures { result ≡ ltb read (pick pairs (2 * n) n) }
{
    if pairs { read / 2 < n } else { read < n }
}

/// Whether a frame may stand where it does, judged or not.
fn is_fit(judged: bool, kind: Kind) -> bool
    ensures { result ≡ (not judged || may_key (code_of kind)) }
{
    !judged || kind.may_be_key()
}

/// Whether it carries an attribute and may carry none. `attribute`: word 5.
fn is_wrong_carrier(attribute: u64, kind: Kind) -> bool
    ensures { result ≡ (not (eqb attribute 0) && not (may_carry (code_of kind))) }
{
    attribute != 0 && !kind.may_carry()
}

/// The same answer, made again of its parts. What a call gives stands in memory: behind this the loop over frames has it in registers, as it has a leaf's.
#[inline(always)]
pub(crate) fn anew<'a>(
    walk: Result<(Walked, Cursor<'a>), Stop>,
) -> Result<(Walked, Cursor<'a>), Stop>
    ensures { result ≡ walk.entry }
{
    match walk {
        Ok((walked, end)) => Ok((walked, end)),
        Err(stop) => Err(stop),
    }
}

/// A frame, with so much depth left. Called from one place, so that it is compiled into the loop over a holder's frames, and the leaves that the next bytes tell with it. Any other is a call of its own.
#[inline(always)]
#[cycle(walk)]
fn frame<'a, P: Profile, const WRITE: bool>(
    c: Cursor<'a>,
    t: &mut [u64],
    room: Room,
    depth: usize,
) -> Result<(Walked, Cursor<'a>), Stop>
    ensures { Walks (frame_p P.profile depth) WRITE c.entry room.lim room.used room.used t.old t.new result }
{
    if depth == 0 {
        return Err(Stop::Refused(Refusal::Depth, c.at));
    }
    if room.lim <= room.used {
        return Err(Stop::Refused(Refusal::Rows, c.at));
    }
    let (b, next) = c.byte()?;
    let kind = P::kind(b);
    if let Some(near) = near_head::<P>(kind, next) {
        let (leaf, end) = near?;
        put_leaf::<WRITE>(t, room.used, leaf, 0);
        let walked = Walked {
            used: room.used + 1,
            kind: leaf.kind,
        };
        return Ok((walked, end));
    }
    if P::THREE {
        if let Some((n, end)) = near_array::<P>(kind, next) {
            let beneath = depth - 1;
            return anew(holder::<P, WRITE>(Kind::Array, n, end, t, room, beneath, 0));
        }
        return anew(typed::<P, WRITE>(kind, next, t, room, depth - 1));
    }
    anew(body::<P, WRITE>(kind, next, t, room, depth - 1, 0))
}

/// A frame's body behind its type byte: it carries no attribute, or one whose row it is told of. Called once by a function, so that it is compiled into it: one call of `holder` there, whether its count is near or not. `attribute`: word 5.
#[inline(always)]
#[cycle(walk)]
fn body<'a, P: Profile, const WRITE: bool>(
    kind: Option<Kind>,
    c: Cursor<'a>,
    t: &mut [u64],
    room: Room,
    depth: usize,
    attribute: u64,
) -> Result<(Walked, Cursor<'a>), Stop>
    requires fits { room.used < room.lim }
    requires known { Known P.profile (coded kind) }
    ensures { Walks (body_p P.profile (frame_p P.profile depth) attribute (coded kind)) WRITE c.entry room.lim (room.used + 1) room.used t.old t.new result }
{
    let (begun, next) = begin_near::<P, WRITE>(kind, c, t, room, attribute)?;
    match begun {
        Begun::Frame(walked) => Ok((walked, next)),
        Begun::Holder(held, n) => {
            anew(holder::<P, WRITE>(held, n, next, t, room, depth, attribute))
        }
    }
}

/// A frame behind its type byte, or an attribute and its frame, which stands at the same depth. `depth`: what is left for the frames beneath it. In a loop, the attribute first, so that both take the same stack.
#[inline(never)]
#[cycle(walk)]
pub(crate) fn typed<'a, P: Profile, const WRITE: bool>(
    kind: Option<Kind>,
    c: Cursor<'a>,
    t: &mut [u64],
    room: Room,
    depth: usize,
) -> Result<(Walked, Cursor<'a>), Stop>
    requires fits { room.used < room.lim }
    requires known { Known P.profile (coded kind) }
    ensures { Walks (typed_p P.profile depth (coded kind)) WRITE c.entry room.lim (room.used + 1) room.used t.old t.new result }
{
    let mut part = kind;
    let mut place = c;
    let mut used = room.used;
    let mut attribute: u64 = 0;
    loop {
        let left = Room {
            lim: room.lim,
            used,
        };
        let (walked, end) = body::<P, WRITE>(part, place, t, left, depth, attribute)?;
        if !is_attribute::<P>(part) {
            if is_wrong_carrier(attribute, walked.kind) {
                return Err(Stop::Refused(Refusal::Carrier, end.at));
            }
            return Ok((walked, end));
        }
        if room.lim <= walked.used {
            return Err(Stop::Refused(Refusal::Rows, end.at));
        }
        let (b, behind) = end.byte()?;
        part = P::kind(b);
        if is_attribute::<P>(part) {
            return Err(Stop::Refused(Refusal::Attribute, behind.at));
        }
        place = behind;
        used = walked.used;
        attribute = room.used as u64 + 1;
    }
}

/// A holder's frames, and then its row. `n`: its count as the wire has it, of frames or pairs. RESP2 has no pairs, and judges none: its loop keeps no more in registers than it needs.
#[cycle(walk)]
pub(crate) fn holder<'a, P: Profile, const WRITE: bool>(
    kind: Kind,
    n: u64,
    c: Cursor<'a>,
    t: &mut [u64],
    room: Room,
    depth: usize,
    attribute: u64,
) -> Result<(Walked, Cursor<'a>), Stop>
    requires fits { room.used < room.lim }
    requires known { Known P.profile (code_of kind) }
    ensures { Walks (rest_p (frame_p P.profile depth) attribute (holder (code_of kind) (frames_of (code_of kind) n))) WRITE c.entry room.lim (room.used + 1) room.used t.old t.new result }
{
    let pairs = has_pairs::<P>(kind);
    let judged = has_judged::<P>(kind);
    // Not a `for` over a range: twice a count of pairs may be more than a u64 holds, and how many were read is word 3.
    let mut place = c;
    let mut used = room.used + 1;
    let mut read: u64 = 0;
    let mut key = true;
    let mut fit = true;
    while is_more(pairs, read, n) {
        let left = Room {
            lim: room.lim,
            used,
        };
        let (walked, next) = frame::<P, WRITE>(place, t, left, depth)?;
        if is_marker(walked.kind) {
            return Err(Stop::Refused(Refusal::Marker, next.at));
        }
        fit = fit & is_fit(judged & key, walked.kind);
        key = !(pairs & key);
        place = next;
        used = walked.used;
        read += 1;
    }
    if !fit {
        return Err(Stop::Refused(Refusal::Key, place.at));
    }
    put::<WRITE>(
        t,
        room.used,
        Row {
            kind: kind.code(),
            w1: 0,
            w2: 0,
            w3: read,
            span: (used - room.used) as u64,
            attribute,
        },
    );
    Ok((Walked { used, kind }, place))
}
