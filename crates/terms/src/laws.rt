// The laws of the definitions. These calls do nothing: their contracts are the theorems.
ghost use Rattle.terms.specs.Shape.{order};
ghost use Rattle.terms.specs.Laws.{TotalOrder, Apart, Injective};
ghost use Rattle.terms.specs.Formed.{Formed};
ghost use Rattle.terms.specs.Feed.{feed};
ghost use Rattle.terms.specs.Bank.{BankLaws};
ghost use Rattle.terms.specs.Layout.{FormedLaws};

/// The order of shapes is total.
pub fn order_laws()
    ensures { TotalOrder order }
{}

/// No feed of a well-formed shape begins that of another, so that equal feeds come from equal shapes.
pub fn feed_laws()
    ensures apart { Apart Formed feed }
    ensures injective { Injective Formed feed }
{}

/// Nodes that are added to a bank leave the shapes before them as they were.
pub fn bank_laws()
    ensures { BankLaws }
{}

/// The well-formed shapes are exactly those that a bank can hold, room aside.
pub fn formed_laws()
    ensures { FormedLaws }
{}
