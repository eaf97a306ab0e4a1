// Literals.
ghost use Rattle.std.specs.Prelude.{◌≡◌, ◌*◌};
ghost use Rattle.terms.specs.Terms.{Leaf};
ghost use Rattle.leaves.specs.Values.{literal_of};
ghost use Rattle.model.specs.Build.{LongOk};
ghost use Rattle.model.specs.Checks.{literal_fits, literal_short};
ghost use Rattle.model.specs.Costs.{literal_bytes};

use crate::part::Part;
use leaves::literal::Literal;
use leaves::name::Name;
use leaves::text::Text;

impl Part for Literal<Text<'_>, Name<'_>> {
    ghost fits = { λ l. literal_fits (literal_of l) };

    ghost short = { λ l. literal_short (literal_of l) };

    ghost bytes = { λ l. literal_bytes (literal_of l) };

    ghost max_bytes = { 514 * 18 };

    // That a Long has 64 bits its type says.
    fn fits(self) -> bool
        ensures fits { result ≡ literal_fits (literal_of self.entry) }
        ensures long { LongOk (Leaf.literal (literal_of self.entry)) }
    {
        match self {
            Literal::Bool(_) | Literal::Long(_) | Literal::String(_) => true,
            Literal::Entity(name, _) => name.fits(),
        }
    }

    fn short(self) -> bool {
        match self {
            Literal::Bool(_) | Literal::Long(_) => true,
            Literal::String(text) => text.short(),
            Literal::Entity(name, id) => name.short() && id.short(),
        }
    }

    fn bytes(self) -> usize {
        match self {
            Literal::Bool(_) | Literal::Long(_) => 0,
            Literal::String(text) => text.bytes(),
            Literal::Entity(name, id) => name.bytes() + id.bytes(),
        }
    }
}
