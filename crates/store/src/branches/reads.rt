// What is read of children.
ghost use Rattle.std.specs.Prelude.{◌≡◌, ◌<◌, [], length, slice_index_or};
ghost use Rattle.model.specs.Checks.{every, keyless, keys_rise};
ghost use Rattle.model.specs.Costs.{keys_bytes};
ghost use Rattle.store.specs.Branches.{branches_of, child_now, Drafted};

use crate::branches::Branches;

impl<'a> Branches<'a> {
    // How many; `drafted` says what is known of any children.
    #[tactic(auto, using(crate::proofs::Children::length_numbered))]
    pub(crate) fn len(self) -> usize
        ensures count { result ≡ length (branches_of self.entry) }
        ensures drafted { Drafted self.entry }
    {
        match self {
            Branches::Plain(numbers) => numbers.len(),
            Branches::Keyed(pairs) => pairs.len(),
        }
    }

    // The key and the number of a child that is there.
    #[tactic(auto, using(crate::proofs::Children::length_numbered, crate::proofs::Children::numbered_at, crate::proofs::Children::seen_or))]
    pub(crate) fn at(self, place: usize) -> (&'a [u8], u32)
        requires { place < length (branches_of self) }
        ensures { child_now result ≡ slice_index_or (branches_of self.entry) place ([], 0) }
    {
        match self {
            Branches::Plain(numbers) => (&[], numbers[place]),
            Branches::Keyed(pairs) => pairs.get(place).unwrap_or((&[], 0)),
        }
    }

    // Whether no child has a key.
    #[tactic(auto, using(crate::proofs::Children::keyless_free))]
    pub(crate) fn keyless(self) -> bool
        ensures { result ≡ every keyless (branches_of self.entry) }
    {
        self.key_bytes() == 0
    }

    // Whether the keys ascend strictly. Without keys all are empty, so there is one child at most.
    #[tactic(auto, using(crate::proofs::Children::rise_keyed))]
    pub(crate) fn rise(self) -> bool
        ensures { result ≡ keys_rise (branches_of self.entry) }
    {
        let many = self.len();
        match self {
            Branches::Plain(_) => many <= 1,
            Branches::Keyed(_) => true,
        }
    }

    // The bytes of all keys.
    #[tactic(auto, using(crate::proofs::Children::keyless_bytes))]
    pub(crate) fn key_bytes(self) -> usize
        ensures { result ≡ keys_bytes (branches_of self.entry) }
    {
        match self {
            Branches::Plain(_) => 0,
            Branches::Keyed(pairs) => pairs.key_bytes(),
        }
    }
}
