// Names.
ghost use Rattle.std.specs.Prelude.{◌*◌};
ghost use Rattle.leaves.specs.Values.{name_of};
ghost use Rattle.model.specs.Checks.{name_fits, name_short};
ghost use Rattle.model.specs.Costs.{name_bytes};

use crate::part::Part;
use crate::texts::member_bytes;
use leaves::name::Name;

// The most namespaces that a name may have.
const MAX_NAMESPACES: usize = 8;

impl Part for Name<'_> {
    ghost fits = { λ n. name_fits (name_of n) };

    ghost short = { λ n. name_short (name_of n) };

    ghost bytes = { λ n. name_bytes (name_of n) };

    ghost max_bytes = { 514 * 17 };

    // There is a base, after few enough namespaces.
    fn fits(self) -> bool {
        !self.base.0.is_empty() && self.namespaces.len() <= MAX_NAMESPACES
    }

    fn short(self) -> bool {
        self.base.short() && self.namespaces.short()
    }

    // The base is a member among the texts.
    fn bytes(self) -> usize {
        member_bytes(self.base) + self.namespaces.bytes()
    }
}
