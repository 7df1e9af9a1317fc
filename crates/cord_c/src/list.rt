// Texts made of a list of others.
ghost use Rattle.std.specs.Prelude.{◌≡◌, ◌⊎◌, ◌<◌, ◌≤◌, length, IfOk};
ghost use Rattle.std.specs.List.{concat};
ghost use Rattle.cord_c.specs.Codes.{MayBeTooLong};
ghost use Rattle.cord_c.specs.Lists.{texts_of};
ghost use denote.RawPtr.{Testable};
ghost use Rattle.core.specs.Ptr.{as_mut_ptr};

use crate::Handle;
use crate::code::{NO_MEMORY, NULL_POINTER, OK, TOO_LONG};
use crate::pointer::missing;
use cord::{MAX_LEN, Text};
use std::alloc::{AllocError, Global};

/// The bytes of all `parts` in order: of no parts no bytes.
#[unsafe(no_mangle)]
pub extern "C" fn zc_catn(alloc: Global, parts: &mut [Handle], out: &mut Handle) -> i32
    requires places { Testable (as_mut_ptr out) }
    ensures text { result ≡ OK → out.new.text ≡ concat (texts_of parts.old) }
    ensures kept { (result ≡ OK) ⊎ (out.new.text ≡ out.old.text) }
    ensures too_long { result ≡ TOO_LONG → MAX_LEN < length (concat (texts_of parts.old)) }
    ensures within_limit { result ≡ OK → length (concat (texts_of parts.old)) ≤ MAX_LEN }
    ensures code { MayBeTooLong result }
    ensures parts { texts_of parts.new ≡ texts_of parts.old }
{
    if missing(out) {
        return NULL_POINTER;
    }
    let Ok(texts) = shares(alloc, parts) else {
        return NO_MEMORY;
    };
    out.hold(alloc, Text::catn(alloc, &texts))
}

// The texts of handles once more, which share their trees. Refused only when out of memory.
fn shares(alloc: Global, parts: &mut [Handle]) -> Result<Vec<Text>, AllocError>
    ensures texts { IfOk result (λ made. made.items ≡ texts_of parts.old) }
    ensures same { texts_of parts.new ≡ texts_of parts.old }
{
    let mut made = Vec::with_capacity(alloc, parts.len())?;
    for place in 0..parts.len() {
        let part = &mut parts[place];
        part.read_onto(alloc, &mut made)?;
    }
    Ok(made)
}
