// Literals and unknowns. `T` is how a text is given and `N` how a name is.
use terms::types::Type;

/// A literal.
#[derive(Clone, Copy, Debug, PartialEq, Eq, PartialOrd, Ord)]
pub enum Literal<T, N> {
    Bool(bool),
    Long(i64),
    String(T),
    Entity(N, T),
}

/// A blank of a condition: its name, and the type of what is to fill it, if it has one.
#[derive(Clone, Copy, Debug, PartialEq, Eq, PartialOrd, Ord)]
pub struct Unknown<T, N> {
    pub name: T,
    pub type_annotation: Option<Type<N>>,
}
