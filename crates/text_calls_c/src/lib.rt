//! What the comparison with Rust's own parsers links: the calls of `text_calls` under their own names, with the same clauses.
#![tactic(auto)]

ghost use Rattle.std.specs.Prelude.{◌≡◌};
ghost use Rattle.meaning.specs.Text.{plain_length, signed_length, signed, double, boolean};
ghost use Rattle.text_calls.specs.Answers.{length_answer, number_answer, double_answer, boolean_answer};

use text_calls::Answer;

/// The text as a plain length.
#[unsafe(no_mangle)]
pub extern "C" fn text_call_plain(s: &[u8]) -> Answer
    ensures { result ≡ length_answer (plain_length s.now) }
{
    text_calls::text_call_plain(s)
}

/// The text as a signed length. three: RESP3, where `?` is -1.
#[unsafe(no_mangle)]
pub extern "C" fn text_call_signed(s: &[u8], three: bool) -> Answer
    ensures { result ≡ length_answer (signed_length three s.now) }
{
    text_calls::text_call_signed(s, three)
}

/// The text as a Number.
#[unsafe(no_mangle)]
pub extern "C" fn text_call_number(s: &[u8]) -> Answer
    ensures { result ≡ number_answer (signed s.now) }
{
    text_calls::text_call_number(s)
}

/// Whether the text is a double.
#[unsafe(no_mangle)]
pub extern "C" fn text_call_double(s: &[u8]) -> Answer
    ensures { result ≡ double_answer (double s.now) }
{
    text_calls::text_call_double(s)
}

/// The text as a boolean, `t` or `f`.
#[unsafe(no_mangle)]
pub extern "C" fn text_call_boolean(s: &[u8]) -> Answer
    ensures { result ≡ boolean_answer (boolean s.now) }
{
    text_calls::text_call_boolean(s)
}
