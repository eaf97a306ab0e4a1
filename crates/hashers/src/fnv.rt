// FNV-1a of 64 bits.
ghost use Rattle.std.specs.Prelude.{◌≡◌, ℕ};
ghost use Rattle.terms.specs.Hashers.{fnv, fnv_next, fnv_start};

use crate::hasher::Hasher;
use std::marker::Model;

const START: u64 = 14695981039346656037;

const FACTOR: u64 = 1099511628211;

/// FNV-1a of 64 bits: its state after some bytes is their digest.
#[derive(Clone, Copy, Debug, PartialEq, Eq)]
pub struct Fnv {
    value: u64,
}

// The digest so far.
impl Model for Fnv {
    ghost Value = { ℕ };

    ghost view = { λ h. h.value };

    ghost inverse = { λ digest. record { value = digest } };
}

impl Fnv {
    /// A hasher that was fed nothing.
    pub fn new() -> Fnv
        ensures { result ≡ fnv_start }
    {
        Fnv { value: START }
    }

    /// The digest of what was fed so far.
    pub fn finish(&self) -> u64
        ensures { result ≡ self.now }
    {
        self.value
    }
}

impl Default for Fnv {
    ghost is_default = { λ h. h ≡ fnv_start };

    fn default() -> Fnv {
        Fnv::new()
    }
}

impl Hasher for Fnv {
    ghost State = { ℕ };

    ghost state = { λ h. h };

    ghost next = { fnv_next };

    fn write(&mut self, byte: u8) {
        self.value = (self.value ^ u64::from(byte)).wrapping_mul(FACTOR);
    }
}

/// The digest of some bytes.
pub fn fnv1a(bytes: &[u8]) -> u64
    ensures { result ≡ fnv bytes.now }
{
    let mut h = Fnv::new();
    h.write_all(bytes);
    h.finish()
}
