//! The rows of a HELLO line: its own, and one for each field that the line has.
ghost use Rattle.std.specs.Prelude.{◌≡◌, ◌+◌, ◌<◌, OnErr};
ghost use Rattle.meaning.specs.Rows.{node_of, span};
ghost use Rattle.kinds.specs.Codes.{code_of};
ghost use Rattle.rows.specs.Put.{row_of};
ghost use Rattle.text3.specs.Hello.{fields_of};
ghost use Rattle.walk.specs.Walks.{Walks, put_if, greeted_p};

use crate::walked::{Room, Walked, put};
use kinds::Kind;
use refusal::{Refusal, Stop};
use rows::Row;
use text::Cursor;
use text3::hello::{Greeting, Span};

/// How many fields follow the version.
#[tactic(auto, unfolding(meaning::specs::Rows::span))]
fn fields(g: Greeting) -> usize
    ensures { result ≡ span (fields_of g) }
{
    match (g.login, g.name) {
        (None, None) => 0,
        (None, Some(_)) => 1,
        (Some(_), None) => 2,
        (Some(_), Some(_)) => 3,
    }
}

/// A field's row.
#[inline(always)]
fn put_field<const WRITE: bool>(t: &mut [u64], row: usize, kind: Kind, text: Span)
    ensures { t.new ≡ put_if WRITE t.old row (row_of (node_of (code_of kind) text.from text.to 0 0) 1) }
{
    put::<WRITE>(
        t,
        row,
        Row {
            kind: kind.code(),
            w1: text.from as u64,
            w2: text.to as u64,
            w3: 0,
            span: 1,
            attribute: 0,
        },
    );
}

/// The rows of a line that was read, with c behind it. None is written unless there is room for all. `attribute`: word 5 of its own.
pub(crate) fn hello<'a, const WRITE: bool>(
    g: Greeting,
    c: Cursor<'a>,
    t: &mut [u64],
    room: Room,
    attribute: u64,
) -> Result<(Walked, Cursor<'a>), Stop>
    requires { room.used < room.lim }
    ensures walks { Walks (greeted_p attribute g.version (fields_of g)) WRITE c.entry room.lim (room.used + 1) room.used t.old t.new result }
    ensures kept { OnErr result (t.new ≡ t.old) }
{
    let fields = fields(g);
    let mut row = room.used + 1;
    if room.lim - row < fields {
        return Err(Stop::Refused(Refusal::Rows, c.at));
    }
    put::<WRITE>(
        t,
        room.used,
        Row {
            kind: Kind::Hello.code(),
            w1: 0,
            w2: 0,
            w3: g.version,
            span: 1 + fields as u64,
            attribute,
        },
    );
    if let Some(login) = g.login {
        put_field::<WRITE>(t, row, Kind::User, login.user);
        put_field::<WRITE>(t, row + 1, Kind::Password, login.password);
        row += 2;
    }
    if let Some(name) = g.name {
        put_field::<WRITE>(t, row, Kind::Name, name);
        row += 1;
    }
    let walked = Walked {
        used: row,
        kind: Kind::Hello,
    };
    Ok((walked, c))
}
