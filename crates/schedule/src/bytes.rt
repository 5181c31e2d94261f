//! Fields, taken from the front of a row of bytes.
ghost use Rattle.std.specs.Prelude.{◌≡◌, ◌<◌, [], ◌∷◌, ◌++◌, length, Ok, MatchBool, MatchResult};
ghost use Rattle.schedule.specs.Format.{two_bytes};
ghost use Rattle.schedule.specs.Parts.{Takes, ListRead, list_span};

use crate::call::Children;
use crate::fault::Fault;

/// The first byte, and what follows it.
pub(crate) fn byte(bytes: &[u8]) -> Result<(u8, &[u8]), Fault>
    ensures { Takes bytes.now 1 (λ b rest. bytes.now ≡ b ∷ rest) result }
{
    match bytes {
        [first, rest @ ..] => Ok((*first, rest)),
        [] => Err(Fault::PastEnd),
    }
}

/// A number of two bytes, high first, and what follows it.
pub(crate) fn number(bytes: &[u8]) -> Result<(u16, &[u8]), Fault>
    ensures { Takes bytes.now 2 (λ n rest. bytes.now ≡ two_bytes n ++ rest) result }
{
    match bytes {
        [high, low, rest @ ..] => Ok((u16::from_be_bytes([*high, *low]), rest)),
        _ => Err(Fault::PastEnd),
    }
}

/// A count and as many cells, and what follows them. Of more than eight cells only the first eight
/// are kept.
pub(crate) fn list(bytes: &[u8]) -> Result<(Children, &[u8]), Fault>
    ensures { Takes bytes.now (list_span bytes.now) (ListRead bytes.now) result }
{
    let (count, rest) = byte(bytes)?;
    let (cells, rest) = rest
        .split_at_checked(usize::from(count))
        .ok_or(Fault::PastEnd)?;
    Ok((Children::of(count, cells), rest))
}

/// The field that `read` takes from the front if it is wanted, else `none` and nothing is read.
pub(crate) fn field_if<'a, T: Drop, R: FnOnce(&'a [u8]) -> Result<(T, &'a [u8]), Fault> + Drop>(
    wanted: bool,
    none: T,
    bytes: &'a [u8],
    read: R,
) -> Result<(T, &'a [u8]), Fault>
    requires { R.pre read bytes }
    ensures { MatchBool wanted (R.post read bytes.entry result) (result ≡ Ok (none, bytes.entry)) }
{
    if wanted {
        read(bytes)
    } else {
        Ok((none, bytes))
    }
}
