//! Text put into a lent buffer, where nothing can fail: each call puts its text at a place of the buffer, and gives the place behind it.
ghost use Rattle.std.specs.Prelude.{[], ◌∷◌, ◌+◌, ◌*◌, ◌<◌, ◌≤◌, ◌≡◌, length, replicate};
ghost use Rattle.meaning.specs.Digits.{digits_of, signed_digits_of, signed_word, shown};
ghost use Rattle.wording.specs.Adds.{Adds};
ghost use Rattle.wording.specs.Escapes.{space, backslash, escaped, escaped_all, hex_of};
ghost use Rattle.wording.specs.Words.{name_at, reason_at};

use crate::kind_name;
use digits::{i64_to_digits, u64_to_digits};
use kinds::Kind;
use refusal::Refusal;

/// One byte.
pub fn byte(out: &mut [u8; 65536], at: usize, b: u8) -> usize
    requires { at < 65536 }
    ensures { Adds (b ∷ []) out.old at out.new result }
{
    out[at] = b;
    at + 1
}

/// Bytes as they are.
pub fn bytes(out: &mut [u8; 65536], at: usize, text: &[u8]) -> usize
    requires { at + length text.now ≤ 65536 }
    ensures { Adds text.now out.old at out.new result }
{
    let mut place = at;
    for b in text {
        place = byte(out, place, *b);
    }
    place
}

/// So many spaces.
pub fn spaces(out: &mut [u8; 65536], at: usize, n: usize) -> usize
    requires { at + n ≤ 65536 }
    ensures { Adds (replicate n space) out.old at out.new result }
{
    let mut place = at;
    for _ in 0..n {
        place = byte(out, place, b' ');
    }
    place
}

/// The digit of a number below 16, in lower case.
fn hex(d: u8) -> u8
    requires { d < 16 }
    ensures { result ≡ hex_of d }
{
    if d < 10 { b'0' + d } else { b'a' + (d - 10) }
}

fn after_backslash(out: &mut [u8; 65536], at: usize, b: u8) -> usize
    requires { at + 2 ≤ 65536 }
    ensures { Adds (backslash ∷ b ∷ []) out.old at out.new result }
{
    let place = byte(out, at, b'\\');
    byte(out, place, b)
}

/// A byte as text that prints, as `Escaped` shows it: four bytes at most.
#[tactic(auto, unfolding(crate::specs::Escapes::escaped))]
pub fn escape(out: &mut [u8; 65536], at: usize, b: u8) -> usize
    requires { at + 4 ≤ 65536 }
    ensures { Adds (escaped b) out.old at out.new result }
{
    match b {
        b'"' | b'\\' => after_backslash(out, at, b),
        b'\n' => after_backslash(out, at, b'n'),
        b'\r' => after_backslash(out, at, b'r'),
        b' '..=b'~' => byte(out, at, b),
        _ => {
            let high = after_backslash(out, at, b'x');
            let low = byte(out, high, hex(b / 16));
            byte(out, low, hex(b % 16))
        }
    }
}

/// Bytes as text that prints.
#[tactic(auto, unfolding(crate::specs::Escapes::escaped_all))]
pub fn escapes(out: &mut [u8; 65536], at: usize, s: &[u8]) -> usize
    requires { at + 4 * length s.now ≤ 65536 }
    ensures { Adds (escaped_all s.now) out.old at out.new result }
{
    let mut place = at;
    for b in s {
        place = escape(out, place, *b);
    }
    place
}

/// The digits of a number.
#[tactic(auto, using(crate::proofs::Rules::room_laws))]
pub fn decimal(out: &mut [u8; 65536], at: usize, n: u64) -> usize
    requires { at + 20 ≤ 65536 }
    ensures { Adds (shown (digits_of n)) out.old at out.new result }
{
    let digits = u64_to_digits(n);
    bytes(out, at, &digits.bytes[digits.unused..])
}

/// The digits of the number that a word is in two's complement, with its sign.
pub fn signed(out: &mut [u8; 65536], at: usize, word: u64) -> usize
    requires { at + 21 ≤ 65536 }
    ensures { Adds (shown (signed_digits_of (signed_word word))) out.old at out.new result }
{
    let digits = i64_to_digits(crate::signed(word));
    bytes(out, at, &digits.bytes[digits.unused..])
}

/// The name of the kind with a code. A code that no kind has has none.
pub fn kind(out: &mut [u8; 65536], at: usize, code: u64) -> usize
    requires { at + 16 ≤ 65536 }
    ensures { Adds (name_at code) out.old at out.new result }
{
    match Kind::from_code(code) {
        Some(kind) => bytes(out, at, kind_name(kind).as_bytes()),
        None => at,
    }
}

/// What the refusal with a number means. A number that no refusal has means nothing.
pub fn reason(out: &mut [u8; 65536], at: usize, number: u64) -> usize
    requires { at + 64 ≤ 65536 }
    ensures { Adds (reason_at number) out.old at out.new result }
{
    match Refusal::try_from(number) {
        Ok(refusal) => bytes(out, at, refusal.words().as_bytes()),
        Err(_) => at,
    }
}
