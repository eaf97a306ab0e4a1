// How literals, unknowns and leaves are kept.
ghost use Rattle.std.specs.Prelude.{◌≡◌, ◌+◌, ◌≤◌, true, length};
ghost use Rattle.std.specs.Option.{option_map};
ghost use Rattle.leaves.specs.Values.{read, type_by, type_of, literal_by, literal_of, unknown_by, unknown_of, leaf_of};
ghost use Rattle.model.specs.Checks.{any};
ghost use Rattle.model.specs.Costs.{maybe_bytes, type_bytes, literal_bytes, leaf_bytes};
ghost use Rattle.store.specs.Pools.{pool, Room, Takes};
ghost use Rattle.store.specs.Kept.{name_kept, leaf_kept, type_in, literal_in, unknown_in, leaf_in};

use crate::parts::Kept;
use crate::texts::TextTable;
use leaves::leaf::{Given, Leaf};
use leaves::literal::{Literal, Unknown};
use leaves::name::Name;
use leaves::text::Text;
use leaves::text_list::Span;
use terms::types::Type;

impl TextTable {
    // Keeps a literal, for whose texts there is room.
    pub(crate) fn keep_literal(
        &mut self,
        literal: Literal<Text<'_>, Name<'_>>,
    ) -> Literal<Span, Span>
        requires { Room (pool self.old) (literal_bytes (literal_of literal)) }
        ensures takes { Takes (pool self.old) (pool self.new) (literal_bytes (literal_of literal.entry)) }
        ensures literal { literal_by (read (pool self.new).bytes) (name_kept (pool self.new)) result ≡ literal_of literal.entry }
        ensures inside { literal_in (pool self.new) result ≡ true }
    {
        match literal {
            Literal::Bool(b) => Literal::Bool(b),
            Literal::Long(z) => Literal::Long(z),
            Literal::String(text) => Literal::String(self.keep_text(text.0)),
            Literal::Entity(name, id) => {
                let name = self.keep_name(name);
                Literal::Entity(name, self.keep_text(id.0))
            }
        }
    }

    // Keeps a type, for whose name, if any, there is room. Arm by arm: of a table that a closure changes nothing would be known.
    pub(crate) fn keep_type(&mut self, given: Type<Name<'_>>) -> Type<Span>
        requires { Room (pool self.old) (type_bytes (type_of given)) }
        ensures takes { Takes (pool self.old) (pool self.new) (type_bytes (type_of given.entry)) }
        ensures kept { type_by (name_kept (pool self.new)) result ≡ type_of given.entry }
        ensures inside { type_in (pool self.new) result ≡ true }
    {
        match given {
            Type::Bool => Type::Bool,
            Type::Long => Type::Long,
            Type::String => Type::String,
            Type::Set => Type::Set,
            Type::Record => Type::Record,
            Type::Entity(name) => Type::Entity(self.keep_name(name)),
            Type::Extension(name) => Type::Extension(self.keep_name(name)),
        }
    }

    // Keeps the type, if any, of an unknown.
    pub(crate) fn keep_annotation(&mut self, given: Option<Type<Name<'_>>>) -> Option<Type<Span>>
        requires { Room (pool self.old) (maybe_bytes type_bytes (option_map type_of given)) }
        ensures takes { Takes (pool self.old) (pool self.new) (maybe_bytes type_bytes (option_map type_of given.entry)) }
        ensures kept { option_map (type_by (name_kept (pool self.new))) result ≡ option_map type_of given.entry }
        ensures inside { any (type_in (pool self.new)) result ≡ true }
    {
        match given {
            Some(given) => Some(self.keep_type(given)),
            None => None,
        }
    }

    // Keeps an unknown, for whose texts there is room. Its name comes last, since a text leaves what is kept of lists as it is.
    pub(crate) fn keep_unknown(
        &mut self,
        unknown: Unknown<Text<'_>, Name<'_>>,
    ) -> Unknown<Span, Span>
        requires { Room (pool self.old) (length (unknown_of unknown).0 + maybe_bytes type_bytes (unknown_of unknown).1) }
        ensures takes { Takes (pool self.old) (pool self.new) (length (unknown_of unknown.entry).0 + maybe_bytes type_bytes (unknown_of unknown.entry).1) }
        ensures unknown { unknown_by (read (pool self.new).bytes) (name_kept (pool self.new)) result ≡ unknown_of unknown.entry }
        ensures inside { unknown_in (pool self.new) result ≡ true }
    {
        let type_annotation = self.keep_annotation(unknown.type_annotation);
        let name = self.keep_text(unknown.name.0);
        Unknown {
            name,
            type_annotation,
        }
    }

    // Keeps a leaf, for whose texts there is room.
    pub(crate) fn keep(&mut self, leaf: Given<'_>) -> Kept
        requires { Room (pool self.old) (leaf_bytes (leaf_of leaf)) }
        ensures takes { Takes (pool self.old) (pool self.new) (leaf_bytes (leaf_of leaf.entry)) }
        ensures leaf { leaf_kept (pool self.new) result ≡ leaf_of leaf.entry }
        ensures inside { leaf_in (pool self.new) result ≡ true }
    {
        match leaf {
            Leaf::Nothing => Leaf::Nothing,
            Leaf::Literal(literal) => Leaf::Literal(self.keep_literal(literal)),
            Leaf::Code(code) => Leaf::Code(code),
            Leaf::Unknown(unknown) => Leaf::Unknown(self.keep_unknown(unknown)),
            Leaf::Name(name) => Leaf::Name(self.keep_name(name)),
            Leaf::Text(text) => Leaf::Text(self.keep_text(text.0)),
            Leaf::Texts(list) => Leaf::Texts(self.keep_list(list)),
            Leaf::Pattern(pattern) => Leaf::Pattern(self.keep_pattern(pattern)),
        }
    }
}
