// Unknowns and their types.
ghost use Rattle.std.specs.Prelude.{◌+◌, ◌*◌, ◌&&◌, length};
ghost use Rattle.std.specs.Option.{option_map};
ghost use Rattle.leaves.specs.Texts.{text_of};
ghost use Rattle.leaves.specs.Values.{type_of};
ghost use Rattle.model.specs.Checks.{any, text_short, type_fits, type_short};
ghost use Rattle.model.specs.Costs.{maybe_bytes, type_bytes};

use crate::part::Part;
use leaves::literal::Unknown;
use leaves::name::Name;
use leaves::text::Text;
use terms::types::Type;

impl Part for Type<Name<'_>> {
    ghost fits = { λ t. type_fits (type_of t) };

    ghost short = { λ t. type_short (type_of t) };

    ghost bytes = { λ t. type_bytes (type_of t) };

    ghost max_bytes = { 514 * 17 };

    // That it has a name exactly at 5 and 6 the enum says.
    fn fits(self) -> bool {
        self.name().fits()
    }

    fn short(self) -> bool {
        self.name().short()
    }

    fn bytes(self) -> usize {
        self.name().bytes()
    }
}

impl Part for Unknown<Text<'_>, Name<'_>> {
    ghost fits = { λ u. any type_fits (option_map type_of u.type_annotation) };

    ghost short = { λ u. text_short (text_of u.name) && any type_short (option_map type_of u.type_annotation) };

    ghost bytes = { λ u. length (text_of u.name) + maybe_bytes type_bytes (option_map type_of u.type_annotation) };

    ghost max_bytes = { 514 * 18 };

    fn fits(self) -> bool {
        self.type_annotation.fits()
    }

    fn short(self) -> bool {
        self.name.short() && self.type_annotation.short()
    }

    fn bytes(self) -> usize {
        self.name.bytes() + self.type_annotation.bytes()
    }
}
