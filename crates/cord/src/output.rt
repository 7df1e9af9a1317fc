// The bytes of a text in a vector, and in a sink.
ghost use Rattle.std.specs.Prelude.{◌≡◌, ◌++◌, OnOk, OnErr, IfOk, IfErr, is_err};
ghost use Rattle.cord_io.specs.Device.{count_after};
ghost use Rattle.cord_iter.specs.Output.{IsPrefixOf, Takes};

use crate::memory::within_memory;
use crate::{NoSource, Text};
use cord_io::{CordError, Sink};
use std::alloc::{AllocError, Global};

impl Text {
    /// Its bytes in a vector of that length. Refused only when out of memory.
    pub fn to_vec(&self, alloc: Global) -> Result<Vec<u8>, AllocError>
        ensures text { IfOk result (λ v. v.items ≡ self.now) }
    {
        within_memory(cord_iter::to_vec(alloc, &self.cord, &mut NoSource))
    }

    /// Hands a sink its bytes, each leaf's slice whole. It takes no memory, and doesn't finish the sink.
    /// `WriteFailed` where the sink failed: then it has taken a prefix of the bytes.
    pub fn put<W: Sink>(&self, sink: &mut W) -> Result<(), CordError>
        ensures text { OnOk result (W.taken sink.new ≡ W.taken sink.old ++ self.now) }
        ensures prefix { OnErr result (Takes (IsPrefixOf self.now) (W.taken sink.old) (W.taken sink.new)) }
        ensures refused { IfErr result (λ e. e ≡ CordError.WriteFailed) }
        ensures count { W.failures sink.new ≡ count_after (is_err result) (W.failures sink.old) }
        ensures finished { W.finished sink.new ≡ W.finished sink.old }
    {
        cord_iter::put(&self.cord, &mut NoSource, sink)?;
        Ok(())
    }
}
