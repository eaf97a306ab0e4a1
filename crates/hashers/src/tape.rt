// The first bytes that are fed, kept as they are.
ghost use Rattle.std.specs.Prelude.{◌≡◌, ◌≤◌};

use crate::hasher::Hasher;

// How many bytes a tape keeps.
const KEPT: usize = 256;

// Fixed memory, and `Copy`, which the kit's `ArrayVec` is not.
/// The first 256 bytes, and a count of all that wraps.
#[derive(Clone, Copy, Debug)]
pub struct Tape {
    front: [u8; KEPT],
    used: usize,
    count: u64,
    ghost ok: { used ≤ 256 },
}

impl Tape {
    ghost use Rattle.terms.specs.Hashers.{tape_start};
    ghost use Rattle.hashers.specs.States.{tape_state};

    /// A tape that was fed nothing.
    pub fn new() -> Tape
        ensures { tape_state result ≡ tape_start }
    {
        Tape {
            front: [0; KEPT],
            used: 0,
            count: 0,
        }
    }

    /// The bytes that were kept.
    pub fn bytes(&self) -> &[u8]
        ensures { result.now ≡ (tape_state self.now).front }
    {
        &self.front[..self.used]
    }

    /// How many bytes were fed, kept or not; wraps at 64 bits.
    pub fn count(&self) -> u64
        ensures { result ≡ (tape_state self.now).count }
    {
        self.count
    }
}

impl Default for Tape {
    ghost use Rattle.terms.specs.Hashers.{tape_start};
    ghost use Rattle.hashers.specs.States.{tape_state};

    ghost is_default = { λ tape. tape_state tape ≡ tape_start };

    fn default() -> Tape {
        Tape::new()
    }
}

impl Hasher for Tape {
    ghost use Rattle.terms.specs.Hashers.{TapeS, tape_next};
    ghost use Rattle.hashers.specs.States.{tape_state};

    ghost State = { TapeS };

    ghost state = { tape_state };

    ghost next = { tape_next };

    #[tactic(auto, using(crate::proofs::Tapes::front_more, crate::proofs::Tapes::front_full))]
    fn write(&mut self, byte: u8) {
        if self.used < KEPT {
            self.front[self.used] = byte;
            self.used += 1;
        }
        self.count = self.count.wrapping_add(1);
    }
}
