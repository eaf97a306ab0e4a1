// What is asked of a part of a leaf, and what it takes.
ghost use Rattle.std.specs.Prelude.{◌≡◌, ◌≤◌, ℕ, Bool, true, Option};
ghost use Rattle.model.specs.Checks.{any};
ghost use Rattle.model.specs.Costs.{maybe_bytes};

// A part of a leaf.
pub(crate) trait Part: Copy {
    ghost fits: { Self → Bool };

    ghost short: { Self → Bool };

    ghost bytes: { Self → ℕ };

    ghost max_bytes: { ℕ };

    // Whether it is in bounds.
    fn fits(self) -> bool
        ensures { result ≡ fits self };

    // Whether its texts are short.
    fn short(self) -> bool
        ensures { result ≡ short self };

    // The bytes that it takes. The bound lets callers add to it.
    fn bytes(self) -> usize
        requires fits { fits self ≡ true }
        requires short { short self ≡ true }
        ensures value { result ≡ bytes self }
        ensures bound { result ≤ max_bytes };
}

impl<T: Part> Part for Option<T> {
    ghost fits = { any T.fits };

    ghost short = { any T.short };

    ghost bytes = { maybe_bytes T.bytes };

    ghost max_bytes = { T.max_bytes };

    fn fits(self) -> bool {
        self.is_none_or(T::fits)
    }

    fn short(self) -> bool {
        self.is_none_or(T::short)
    }

    fn bytes(self) -> usize {
        self.map_or(0, T::bytes)
    }
}
