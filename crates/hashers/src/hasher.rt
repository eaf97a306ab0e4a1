// What a hasher is, and how it takes in bytes.
ghost use Rattle.std.specs.Prelude.{◌≡◌, ℕ};
ghost use Rattle.terms.specs.Hashers.{fed};

/// A state, and a next state for each byte.
pub trait Hasher {
    ghost State: { Type 0 };

    ghost state: { Self → State };

    ghost next: { State → ℕ → State };

    /// Moves to the next state; no byte is refused.
    fn write(&mut self, byte: u8)
        ensures { state self.new ≡ next (state self.old) byte };

    /// Feeds the bytes themselves.
    fn write_all(&mut self, bytes: &[u8])
        ensures { state self.new ≡ fed next (state self.old) bytes.now }
    {
        for &b in bytes {
            self.write(b);
        }
    }
}
