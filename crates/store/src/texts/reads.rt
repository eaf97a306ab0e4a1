// How what is kept is read. A span that lies outside of its table reads as far as there is any of it.
ghost use Rattle.std.specs.Prelude.{◌≡◌};
ghost use Rattle.std.specs.Option.{option_map};
ghost use Rattle.leaves.specs.Texts.{text_of};
ghost use Rattle.leaves.specs.Values.{read, texts_of, name_of, pattern_of, type_by, type_of, literal_by, literal_of, unknown_by, unknown_of, leaf_of};
ghost use Rattle.store.specs.Pools.{pool};
ghost use Rattle.store.specs.Kept.{texts_kept, name_kept, pattern_kept, leaf_kept};

use crate::parts::Kept;
use crate::texts::TextTable;
use leaves::leaf::{Given, Leaf};
use leaves::literal::{Literal, Unknown};
use leaves::name::Name;
use leaves::pattern::PatternElem;
use leaves::text::Text;
use leaves::text_list::{Span, TextList};
use terms::types::Type;

impl TextTable {
    // The bytes of a text.
    pub(crate) fn text(&self, span: Span) -> Text<'_>
        ensures { text_of result ≡ read (pool self.now).bytes span }
    {
        Text(span.of(self.bytes.as_slice()))
    }

    // The texts of a list.
    #[tactic(auto, using(crate::proofs::Readings::texts_read))]
    pub(crate) fn list(&self, span: Span) -> TextList<'_>
        ensures { texts_of result ≡ texts_kept (pool self.now) span }
    {
        TextList::Kept(self.bytes.as_slice(), span.of(self.spans.as_slice()))
    }

    // A name, whose base is the first of its texts.
    pub(crate) fn name(&self, span: Span) -> Name<'_>
        ensures { name_of result ≡ name_kept (pool self.now) span }
    {
        match span.of(self.spans.as_slice()) {
            [base, namespaces @ ..] => Name {
                base: self.text(*base),
                namespaces: TextList::Kept(self.bytes.as_slice(), namespaces),
            },
            [] => Name {
                base: Text(&[]),
                namespaces: TextList::Given(&[]),
            },
        }
    }

    // The elements of a pattern.
    pub(crate) fn pattern(&self, span: Span) -> &[PatternElem]
        ensures { pattern_of result.now ≡ pattern_kept (pool self.now) span }
    {
        span.of(self.elems.as_slice())
    }

    // A literal with its texts.
    fn literal(&self, kept: Literal<Span, Span>) -> Literal<Text<'_>, Name<'_>>
        ensures { literal_of result ≡ literal_by (read (pool self.now).bytes) (name_kept (pool self.now)) kept }
    {
        match kept {
            Literal::Bool(b) => Literal::Bool(b),
            Literal::Long(z) => Literal::Long(z),
            Literal::String(text) => Literal::String(self.text(text)),
            Literal::Entity(name, id) => Literal::Entity(self.name(name), self.text(id)),
        }
    }

    // A type with its name, if it has one. Arm by arm: a `map` would have to require that its closure may be called.
    fn type_of(&self, kept: Type<Span>) -> Type<Name<'_>>
        ensures { type_of result ≡ type_by (name_kept (pool self.now)) kept }
    {
        match kept {
            Type::Bool => Type::Bool,
            Type::Long => Type::Long,
            Type::String => Type::String,
            Type::Set => Type::Set,
            Type::Record => Type::Record,
            Type::Entity(name) => Type::Entity(self.name(name)),
            Type::Extension(name) => Type::Extension(self.name(name)),
        }
    }

    // The type, if any, of an unknown.
    fn annotation(&self, kept: Option<Type<Span>>) -> Option<Type<Name<'_>>>
        ensures { option_map type_of result ≡ option_map (type_by (name_kept (pool self.now))) kept }
    {
        kept.map(|kept| self.type_of(kept))
    }

    // An unknown with its name and its type.
    fn unknown(&self, kept: Unknown<Span, Span>) -> Unknown<Text<'_>, Name<'_>>
        ensures { unknown_of result ≡ unknown_by (read (pool self.now).bytes) (name_kept (pool self.now)) kept }
    {
        Unknown {
            name: self.text(kept.name),
            type_annotation: self.annotation(kept.type_annotation),
        }
    }

    // A leaf with all that it has.
    pub(crate) fn leaf(&self, kept: Kept) -> Given<'_>
        ensures { leaf_of result ≡ leaf_kept (pool self.now) kept }
    {
        match kept {
            Leaf::Nothing => Leaf::Nothing,
            Leaf::Literal(literal) => Leaf::Literal(self.literal(literal)),
            Leaf::Code(code) => Leaf::Code(code),
            Leaf::Unknown(unknown) => Leaf::Unknown(self.unknown(unknown)),
            Leaf::Name(name) => Leaf::Name(self.name(name)),
            Leaf::Text(text) => Leaf::Text(self.text(text)),
            Leaf::Texts(list) => Leaf::Texts(self.list(list)),
            Leaf::Pattern(pattern) => Leaf::Pattern(self.pattern(pattern)),
        }
    }
}
