// The seventeen kinds of nodes, in one table.
ghost use Rattle.std.specs.Prelude.{◌≡◌};
ghost use Rattle.terms.specs.Kinds.{kind};
ghost use Rattle.terms.specs.Codes.{from_code};
ghost use Rattle.codes.specs.Codes.{IsCodeOf, kind_code, all_kinds, sort_code, children_of};

use self::Children::{Exactly, Keyed, Many};
use terms::refusal::Refusal;

/// What a node is.
#[derive(Clone, Copy, Debug, PartialEq, Eq, Hash)]
pub enum Kind {
    Lit,
    Var,
    Slot,
    Unknown,
    If,
    And,
    Or,
    UnaryApp,
    BinaryApp,
    ExtensionFunctionApp,
    GetAttr,
    HasAttr,
    ExtHasAttr,
    Like,
    Set,
    Record,
    Is,
}

/// Which children a node has: so many, a list, or a list with a key for each.
#[derive(Clone, Copy, Debug, PartialEq, Eq, Hash)]
pub enum Children {
    Exactly(u8),
    Many,
    Keyed,
}

/// Which leaf a node has. Variables, slots and operators are codes.
#[derive(Clone, Copy, Debug, PartialEq, Eq, Hash)]
pub enum LeafSort {
    Nothing = 0,
    Literal = 1,
    Code = 2,
    Unknown = 3,
    Name = 4,
    Text = 5,
    Texts = 6,
    Pattern = 7,
}

// Each kind with its number, its children, its leaf, and how many codes it has, in the order of the enum.
const KINDS: [(Kind, u8, Children, LeafSort, u8); 17] = [
    (Kind::Lit, 0, Exactly(0), LeafSort::Literal, 0),
    (Kind::Var, 1, Exactly(0), LeafSort::Code, 4),
    (Kind::Slot, 2, Exactly(0), LeafSort::Code, 2),
    (Kind::Unknown, 3, Exactly(0), LeafSort::Unknown, 0),
    (Kind::If, 4, Exactly(3), LeafSort::Nothing, 0),
    (Kind::And, 5, Exactly(2), LeafSort::Nothing, 0),
    (Kind::Or, 6, Exactly(2), LeafSort::Nothing, 0),
    (Kind::UnaryApp, 7, Exactly(1), LeafSort::Code, 3),
    (Kind::BinaryApp, 8, Exactly(2), LeafSort::Code, 12),
    (Kind::ExtensionFunctionApp, 9, Many, LeafSort::Name, 0),
    (Kind::GetAttr, 10, Exactly(1), LeafSort::Text, 0),
    (Kind::HasAttr, 11, Exactly(1), LeafSort::Text, 0),
    (Kind::ExtHasAttr, 12, Exactly(1), LeafSort::Texts, 0),
    (Kind::Like, 13, Exactly(1), LeafSort::Pattern, 0),
    (Kind::Set, 14, Many, LeafSort::Nothing, 0),
    (Kind::Record, 15, Keyed, LeafSort::Nothing, 0),
    (Kind::Is, 16, Exactly(1), LeafSort::Name, 0),
];

/// The kind's number.
impl From<Kind> for u8 {
    ghost from_gives = { IsCodeOf kind_code all_kinds };

    fn from(kind: Kind) -> u8 {
        KINDS[kind as usize].1
    }
}

/// The kind of a number, or refusal 2.
impl TryFrom<u8> for Kind {
    type Error = Refusal;

    ghost try_from_gives = { λ n r. r ≡ from_code kind_code all_kinds n };

    fn try_from(code: u8) -> Result<Kind, Refusal> {
        match KINDS.get(code as usize) {
            Some(&(kind, ..)) => Ok(kind),
            None => Err(Refusal::Leaf),
        }
    }
}

impl Kind {
    /// Which children a node of the kind has.
    pub fn children(self) -> Children
        ensures { children_of result ≡ (kind (kind_code self)).children }
    {
        KINDS[self as usize].2
    }

    /// Which leaf a node of the kind has.
    pub fn leaf(self) -> LeafSort
        ensures { sort_code result ≡ (kind (kind_code self)).leaf }
    {
        KINDS[self as usize].3
    }

    /// How many codes there are, where the leaf is one.
    pub fn codes(self) -> u8
        ensures { result ≡ (kind (kind_code self)).codes }
    {
        KINDS[self as usize].4
    }
}

/// The number of the sort.
impl From<LeafSort> for u8 {
    ghost from_gives = { λ sort n. n ≡ sort_code sort };

    fn from(sort: LeafSort) -> u8 {
        sort as u8
    }
}
