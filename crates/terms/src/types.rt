// Types.
ghost use Rattle.std.specs.Prelude.{◌≡◌};
ghost use Rattle.terms.specs.Codes.{type_code, type_name, type_from_code};

use crate::refusal::Refusal;

/// The types of values. `N` is how the name of an entity or extension type is given.
#[derive(Clone, Copy, Debug, PartialEq, Eq, PartialOrd, Ord)]
pub enum Type<N> {
    Bool,
    Long,
    String,
    Set,
    Record,
    Entity(N),
    Extension(N),
}

impl<N: Copy> Type<N> {
    /// The type's number.
    pub fn code(self) -> u8
        ensures { result ≡ type_code self }
    {
        match self {
            Type::Bool => 0,
            Type::Long => 1,
            Type::String => 2,
            Type::Set => 3,
            Type::Record => 4,
            Type::Entity(_) => 5,
            Type::Extension(_) => 6,
        }
    }

    /// The type's name, if it has one.
    pub fn name(self) -> Option<N>
        ensures { result ≡ type_name self }
    {
        match self {
            Type::Entity(name) | Type::Extension(name) => Some(name),
            _ => None,
        }
    }

    // No `TryFrom`: the number comes with a name that may be missing.
    /// The type of a number, with a name exactly at 5 and 6; or refusal 2.
    pub fn from_code(code: u8, name: Option<N>) -> Result<Type<N>, Refusal>
        ensures { result ≡ type_from_code code name }
    {
        match (code, name) {
            (0, None) => Ok(Type::Bool),
            (1, None) => Ok(Type::Long),
            (2, None) => Ok(Type::String),
            (3, None) => Ok(Type::Set),
            (4, None) => Ok(Type::Record),
            (5, Some(name)) => Ok(Type::Entity(name)),
            (6, Some(name)) => Ok(Type::Extension(name)),
            _ => Err(Refusal::Leaf),
        }
    }
}
