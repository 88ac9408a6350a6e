//! A frame behind its type byte, up to the frames that it holds: none, and its rows are written; or its kind and their count.
ghost use Rattle.std.specs.Prelude.{◌≡◌, ◌<◌};
ghost use Rattle.kinds.specs.Codes.{coded};
ghost use Rattle.walk.specs.Walks.{Begins};

use crate::hello::hello;
use crate::walked::{Room, Walked, put_leaf};
use heads::{Head, head_of, near_holder};
use kinds::{Kind, Profile};
use refusal::Stop;
use text::Cursor;

/// A frame that was walked, or a holder's kind and its count as the wire has it, of frames or pairs.
#[derive(Clone, Copy)]
pub enum Begun {
    Frame(Walked),
    Holder(Kind, u64),
}

/// The first lines of a frame, and its rows where it holds no other. It calls no function that calls it: what it takes of the stack is taken once. `attribute`: word 5.
#[inline(never)]
pub(crate) fn begin<'a, P: Profile, const WRITE: bool>(
    kind: Option<Kind>,
    c: Cursor<'a>,
    t: &mut [u64],
    room: Room,
    attribute: u64,
) -> Result<(Begun, Cursor<'a>), Stop>
    requires { room.used < room.lim }
    ensures { Begins P.profile (coded kind) attribute WRITE c.entry room.lim room.used t.old t.new result }
{
    let (head, next) = head_of::<P>(kind, c)?;
    match head {
        Head::Leaf(leaf) => {
            put_leaf::<WRITE>(t, room.used, leaf, attribute);
            let walked = Walked {
                used: room.used + 1,
                kind: leaf.kind,
            };
            Ok((Begun::Frame(walked), next))
        }
        Head::Hello(g) => {
            let (walked, end) = hello::<WRITE>(g, next, t, room, attribute)?;
            Ok((Begun::Frame(walked), end))
        }
        Head::Holder(kind, n) => Ok((Begun::Holder(kind, n), next)),
    }
}

/// The same: the count of a holder that the next bytes tell is read with no call.
#[inline(always)]
pub(crate) fn begin_near<'a, P: Profile, const WRITE: bool>(
    kind: Option<Kind>,
    c: Cursor<'a>,
    t: &mut [u64],
    room: Room,
    attribute: u64,
) -> Result<(Begun, Cursor<'a>), Stop>
    requires { room.used < room.lim }
    ensures { Begins P.profile (coded kind) attribute WRITE c.entry room.lim room.used t.old t.new result }
{
    if let Some(((held, n), next)) = near_holder::<P>(kind, c) {
        return Ok((Begun::Holder(held, n), next));
    }
    begin::<P, WRITE>(kind, c, t, room, attribute)
}
