// What looks at the bytes of a cord.
ghost use Rattle.std.specs.Prelude.{◌≡◌, ℕ, Bool};
ghost use Rattle.cord_iter.specs.Walk.{walk};

/// What looks at bytes one after another until it stops.
pub trait Visitor {
    /// What is known of a visitor: it takes no memory, so its answers follow from its state.
    ghost State: { Type 0 };

    /// The state that it is in.
    ghost state: { Self → State };

    /// The state after a byte, and whether it stops there.
    ghost step: { State → ℕ → State × Bool };

    /// Looks at one byte. True stops the walk.
    fn byte(&mut self, byte: u8) -> bool
        ensures { (state self.new, result) ≡ step (state self.old) byte };

    /// Looks at bytes as `byte` does at each one in order up to the first stop, and answers whether it stopped. A
    /// visitor that can look at many at once, as `memchr` does, writes its own.
    fn bytes(&mut self, bytes: &[u8]) -> bool
        ensures { (state self.new, result) ≡ walk step (state self.old) bytes.now }
    {
        for byte in bytes {
            if self.byte(*byte) {
                return true;
            }
        }
        false
    }
}
