// The checks of numbers, as statements make them.
ghost use Rattle.std.specs.Prelude.{◌≡◌};
ghost use Rattle.cord_meaning.specs.State as meant;

use cord_io::MAX_LEN;
use cord_meaning::FaultKind;

/// A number in the place of an index, a count or an unsigned argument.
pub(crate) fn as_index(value: i64) -> Result<u64, FaultKind>
    ensures { result ≡ meant.as_index value }
{
    if value < 0 {
        return Err(FaultKind::Negative);
    }
    Ok(value as u64)
}

/// A number in the place of a byte.
pub(crate) fn as_byte(value: i64) -> Result<u8, FaultKind>
    ensures { result ≡ meant.as_byte value }
{
    if value < 0 || 255 < value {
        return Err(FaultKind::BadByte);
    }
    Ok(value as u8)
}

/// A length that is at most `MAX_LEN`.
pub(crate) fn as_length(len: u64) -> Result<u64, FaultKind>
    ensures { result ≡ meant.as_length MAX_LEN len }
{
    if MAX_LEN < len {
        return Err(FaultKind::TooLong);
    }
    Ok(len)
}
