// Hashes of texts.
ghost use Rattle.std.specs.Prelude.{◌≡◌};
ghost use Rattle.cord.specs.Hashes.{fnv1a};
ghost use denote.RawPtr.{Testable};
ghost use Rattle.core.specs.Ptr.{as_mut_ptr};

use crate::Handle;
use crate::pointer::missing;
use cord::Text;

/// FNV-1a of 64 bits of the bytes.
#[unsafe(no_mangle)]
pub extern "C" fn zc_hash(x: &mut Handle) -> u64
    requires places { Testable (as_mut_ptr x) }
    ensures hash { result ≡ fnv1a x.old.text }
    ensures x { x.new.text ≡ x.old.text }
{
    if missing(x) {
        return Text::empty().fnv1a();
    }
    x.text(&Text::empty()).fnv1a()
}
