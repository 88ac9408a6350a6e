//! A frame that looks small, walked once, in rows beside the table, which are then laid in front of it.
ghost use Rattle.std.specs.Prelude.{◌≡◌, ◌+◌, ◌*◌, ◌≤◌, ◌<◌, length};
ghost use Rattle.meaning.specs.Rows.{row_width, most_rows};
ghost use Rattle.walk.specs.Walks.{Walks};
ghost use Rattle.walk.specs.Tops.{Holds, held_p, judged_p, judged_w, is_full, Apart};

use crate::frames::{holder, in_pairs, is_marker, typed};
use crate::walked::{Room, Walked};
use kinds::{Kind, Profile};
use refusal::{Refusal, Stop};
use text::Cursor;
use text::number::near_digits;

/// What is walked at the top: a holder's frames, behind its count, or an attribute and its frame, behind its type byte.
#[derive(Clone, Copy)]
pub enum Held {
    Frames(Kind, u64),
    Attribute,
}

/// How many rows beside the table a holder of few frames is walked in: a command of up to five frames.
pub(crate) const FEW: usize = 6;

/// And one with an array at its front, or of some frames more: as many as frames may stand in one another.
pub(crate) const NESTED: usize = 32;

/// In how many rows beside the table it is tried: few where it counts few, more where its count has one digit or an array stands at its front, else none. It chooses a way, and no answer.
#[inline(always)]
pub(crate) fn rows_to_try(held: Held, c: Cursor) -> usize {
    match held {
        Held::Frames(kind, n) => rows_by_count(in_pairs(kind), n, c),
        Held::Attribute => match near_digits(c) {
            Some((n, front)) => rows_by_count(true, n, front),
            None => 0,
        },
    }
}

#[inline(always)]
fn rows_by_count(pairs: bool, n: u64, front: Cursor) -> usize {
    if 9 < n {
        return 0;
    }
    let few = if pairs { 2 } else { 5 };
    let nested = front.at < front.src.len() && front.src[front.at] == b'*';
    if nested || few < n { NESTED } else { FEW }
}

/// A walk of it, into the table or not.
#[inline(always)]
pub(crate) fn walk_held<'a, P: Profile, const WRITE: bool>(
    held: Held,
    c: Cursor<'a>,
    t: &mut [u64],
    room: Room,
    depth: usize,
) -> Result<(Walked, Cursor<'a>), Stop>
    requires fits { room.used < room.lim }
    requires known { Holds P.profile held }
    ensures { Walks (held_p P.profile depth held) WRITE c.entry room.lim (room.used + 1) room.used t.old t.new result }
{
    match held {
        Held::Frames(kind, n) => holder::<P, WRITE>(kind, n, c, t, room, depth, 0),
        Held::Attribute => typed::<P, WRITE>(Some(Kind::Attribute), c, t, room, depth),
    }
}

/// What a call says of a walk of its frame: the complete decoder refuses a marker.
#[inline(always)]
fn judged<'a>(
    complete: bool,
    walk: Result<(Walked, Cursor<'a>), Stop>,
) -> Result<(Walked, Cursor<'a>), Stop>
    ensures { result ≡ judged_w complete walk.entry }
{
    match walk {
        Ok((walked, end)) => {
            if complete & is_marker(walked.kind) {
                Err(Stop::Refused(Refusal::Marker, end.at))
            } else {
                Ok((walked, end))
            }
        }
        Err(stop) => Err(stop),
    }
}

/// Whether rows are missing.
#[inline(always)]
fn is_full(stop: Stop) -> bool
    ensures { result ≡ is_full stop }
{
    match stop {
        Stop::Refused(refusal, _) => refusal == Refusal::Rows,
        Stop::Unfinished => false,
    }
}

/// The frame walked in ROWS rows beside the table. None: they are too few, or more than the table has, and t is as it was.
#[inline(always)]
pub(crate) fn apart<'a, P: Profile, const ROWS: usize>(
    held: Held,
    c: Cursor<'a>,
    t: &mut [u64],
    lim: usize,
    depth: usize,
    complete: bool,
) -> Option<Result<(Walked, Cursor<'a>), Stop>>
    requires few { (0 < ROWS) × (ROWS ≤ most_rows) }
    requires table { row_width * lim ≤ length t.old }
    requires known { Holds P.profile held }
    ensures { Apart (judged_p complete (held_p P.profile depth held)) lim c.entry t.old t.new result }
{
    if lim < ROWS {
        return None;
    }
    let row = &rows::BLANK_ROW;
    let mut blank = [*row; ROWS];
    let own = blank.as_flattened_mut();
    let room = Room { lim: ROWS, used: 0 };
    match judged(complete, walk_held::<P, true>(held, c, own, room, depth)) {
        Ok((walked, end)) => {
            rows::lay(t, own, walked.used);
            Some(Ok((walked, end)))
        }
        Err(stop) => {
            if is_full(stop) {
                return None;
            }
            Some(Err(stop))
        }
    }
}
