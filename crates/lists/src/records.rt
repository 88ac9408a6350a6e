//! The records of a list, one after the other.
ghost use Rattle.std.specs.Prelude.{◌<◌, ⊤, ℕ, List, length, Ok, IfOk};
ghost use Rattle.lists.specs.Records.{Holds};

/// What a program parses from the front of a list; E says why a record is not as it should be.
pub trait Record<'a, E>: Sized {
    // What stands at the front of a list, as what it is parsed, and what stands behind it.
    ghost parses: { List ℕ → Self → List ℕ → Type 0 } = { λ _ _ _. ⊤ };

    /// The record at the front of `list` and what stands behind it; a fault where none is there.
    fn parse(list: &'a [u8]) -> Result<(Self, &'a [u8]), E>
        ensures parsed { IfOk result (λ p. parses list.now p.0 p.1.now) }
        ensures shorter { IfOk result (λ p. length p.1.now < length list.now) };
}

/// The first record that is not as it should be.
#[derive(Clone, Copy, Debug, Drop)]
pub struct Stop<E> {
    /// which record, counted from 1
    pub record: u64,
    /// what is wrong with it
    pub fault: E,
}

/// Parses each record of `list` and holds it to what `hold` asks: how many there are, or the first that is at fault.
pub fn go_through<'a, E, R: Record<'a, E>, F: FnMut(R) -> Result<(), E>>(
    list: &'a [u8],
    mut hold: F,
) -> Result<u64, Stop<E>>
    requires { F.IsAlwaysCallable hold }
    ensures { IfOk result (λ n. Holds R.parses (λ p r q. F.step p r (Ok tt) q) list.now hold n) }
{
    let mut record: u64 = 0;
    // Not an iterator: a record that is at fault ends it, and what is left is what the next one begins with.
    let mut rest = list;
    while !rest.is_empty() {
        record += 1;
        let (next, behind) = R::parse(rest).map_err(|fault| Stop { record, fault })?;
        hold(next).map_err(|fault| Stop { record, fault })?;
        rest = behind;
    }
    Ok(record)
}
