//! The theory of building condition trees: definitions (in specs/) and their laws.
#![tactic(auto)]

ghost use Rattle.model.specs.Build.{BuildLaws};

/// Building leaves every tree that was there as it was, and keeps the facts of every bank.
pub fn build_laws()
    ensures { BuildLaws }
{}
