//! The test for null pointers. A reference is never null, so proofs take no heed of it: it is for callers in C.
ghost use Rattle.std.specs.Prelude.{◌≡◌, false};
ghost use denote.RawPtr.{Testable};
ghost use Rattle.core.specs.Ptr.{as_ptr};

use std::ptr::NonNull;

/// Whether C gave a null pointer.
pub(crate) fn missing<T>(at: &T) -> bool
    requires { Testable (as_ptr at) }
    ensures { result ≡ false }
{
    NonNull::new(NonNull::from_ref(at).as_ptr()).is_none()
}

/// Whether C gave a null pointer for one of two.
pub(crate) fn either_missing<T, U>(x: &T, y: &U) -> bool
    requires { Testable (as_ptr x) × Testable (as_ptr y) }
    ensures { result ≡ false }
{
    missing(x) || missing(y)
}

/// Whether C gave a null pointer for one of three.
pub(crate) fn any_missing<T, U, V>(x: &T, y: &U, z: &V) -> bool
    requires { Testable (as_ptr x) × Testable (as_ptr y) × Testable (as_ptr z) }
    ensures { result ≡ false }
{
    missing(x) || missing(y) || missing(z)
}
