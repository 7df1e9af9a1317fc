// What only out of memory refuses.
ghost use Rattle.std.specs.Prelude.{◌≡◌, IfOk, IsErr, IsOkUnless, Ok};

use cord_io::CordError;
use std::alloc::AllocError;

/// What was made by a call that only out of memory refuses.
pub(crate) fn within_memory<T>(made: Result<T, CordError>) -> Result<T, AllocError>
    requires only_memory { IsOkUnless made CordError.NoMemory }
    ensures made { IfOk result (λ x. made ≡ Ok x) }
    ensures refused { IsErr result → IsErr made }
{
    made.map_err(|_| AllocError)
}
