// The check of a leaf.
ghost use Rattle.std.specs.Prelude.{◌≡◌, ℕ, true};
ghost use Rattle.codes.specs.Codes.{kind_code, sort_code};
ghost use Rattle.terms.specs.Kinds.{sort};
ghost use Rattle.leaves.specs.Values.{leaf_of};
ghost use Rattle.model.specs.Build.{LongOk};
ghost use Rattle.model.specs.Checks.{leaf_fits, leaf_short};
ghost use Rattle.model.specs.Costs.{leaf_bytes};
ghost use Rattle.checks.specs.Checked.{leaf_cost};

use crate::part::Part;
use codes::kind::{Kind, LeafSort};
use leaves::leaf::{Given, Leaf};
use terms::refusal::Refusal;

// Which sort of leaf it is.
fn sort_of(leaf: Given<'_>) -> LeafSort
    ensures { sort_code result ≡ sort (leaf_of leaf.entry) }
{
    match leaf {
        Leaf::Nothing => LeafSort::Nothing,
        Leaf::Literal(_) => LeafSort::Literal,
        Leaf::Code(_) => LeafSort::Code,
        Leaf::Unknown(_) => LeafSort::Unknown,
        Leaf::Name(_) => LeafSort::Name,
        Leaf::Text(_) => LeafSort::Text,
        Leaf::Texts(_) => LeafSort::Texts,
        Leaf::Pattern(_) => LeafSort::Pattern,
    }
}

// These three are functions and no `Part`: the bounds of a leaf depend on how many codes its kind has.

// Whether it is in bounds, where a code is below `codes`.
fn leaf_fits(codes: u8, leaf: Given<'_>) -> bool
    ensures fits { result ≡ leaf_fits codes (leaf_of leaf.entry) }
    ensures long { LongOk (leaf_of leaf.entry) }
{
    match leaf {
        Leaf::Nothing | Leaf::Text(_) => true,
        Leaf::Literal(literal) => literal.fits(),
        Leaf::Code(code) => code < codes,
        Leaf::Unknown(unknown) => unknown.fits(),
        Leaf::Name(name) => name.fits(),
        Leaf::Texts(texts) => texts.len() > 1 && texts.fits(),
        Leaf::Pattern(pattern) => pattern.fits(),
    }
}

// Whether its texts are short.
fn leaf_short(leaf: Given<'_>) -> bool
    ensures { result ≡ leaf_short (leaf_of leaf.entry) }
{
    match leaf {
        Leaf::Nothing | Leaf::Code(_) | Leaf::Pattern(_) => true,
        Leaf::Literal(literal) => literal.short(),
        Leaf::Unknown(unknown) => unknown.short(),
        Leaf::Name(name) => name.short(),
        Leaf::Text(text) => text.short(),
        Leaf::Texts(texts) => texts.short(),
    }
}

// The bytes that it takes.
fn leaf_bytes(leaf: Given<'_>) -> usize
    requires fits { (codes : ℕ) × (leaf_fits codes (leaf_of leaf) ≡ true) }
    requires short { leaf_short (leaf_of leaf) ≡ true }
    ensures { result ≡ leaf_bytes (leaf_of leaf.entry) }
{
    match leaf {
        Leaf::Nothing | Leaf::Code(_) => 0,
        Leaf::Literal(literal) => literal.bytes(),
        Leaf::Unknown(unknown) => unknown.bytes(),
        Leaf::Name(name) => name.bytes(),
        Leaf::Text(text) => text.bytes(),
        Leaf::Texts(texts) => texts.bytes(),
        Leaf::Pattern(pattern) => pattern.bytes(),
    }
}

/// The bytes that the leaf of a node of this kind takes; or refusal 2 where it is of another sort or out of bounds, and then 3 where a text is too long.
pub fn check_leaf(kind: Kind, leaf: Given<'_>) -> Result<usize, Refusal>
    ensures value { result ≡ leaf_cost (kind_code kind) (leaf_of leaf.entry) }
    ensures long { LongOk (leaf_of leaf.entry) }
{
    let codes = kind.codes();
    if !leaf_fits(codes, leaf) || sort_of(leaf) != kind.leaf() {
        return Err(Refusal::Leaf);
    }
    if !leaf_short(leaf) {
        return Err(Refusal::Text);
    }
    Ok(leaf_bytes(leaf))
}
