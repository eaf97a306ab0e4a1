// How lines are noted.
ghost use Rattle.std.specs.Prelude.{◌≡◌, IfOk, MatchResult};
ghost use Rattle.terms.specs.declared.refusal.Refusal.TheVariants.{Memory};
ghost use Rattle.lines.specs.Lines.{lines};
ghost use Rattle.ledger.specs.Ledgers.{ledger_of, blank, noted_all, Notes, Exactly, Counted};

use crate::ledger::{Ledger, LongLine};
use catalogue::entry::Entry;
use catalogue::names::Catalogue;
use lines::Lines;
use std::alloc::Global;
use terms::refusal::Refusal;

impl Ledger {
    /// Nothing read.
    pub fn new(heap: Global) -> Ledger
        ensures { ledger_of result ≡ blank }
    {
        Ledger {
            catalogue: Catalogue::new(heap),
            refused: Vec::new(heap),
            read: 0,
            repeated: 0,
        }
    }

    /// Notes one line more; without memory nothing changes.
    pub fn note(&mut self, line: &[u8]) -> Result<(), Refusal>
        ensures { Notes (ledger_of self.old) line.now result (ledger_of self.new) }
    {
        // No memory holds more lines than a u64 counts.
        let number = self.read.checked_add(1).ok_or(Refusal::Memory)?;
        match self.catalogue.put(line) {
            Ok(Entry::Kept) => {}
            Ok(Entry::Repeated) => self.repeated += 1,
            Err(Refusal::Text) => {
                let bytes = line.len();
                self.refused.push(LongLine { number, bytes })?;
            }
            Err(refusal) => return Err(refusal),
        }
        self.read = number;
        Ok(())
    }

    /// Notes all lines of the input.
    pub fn of_input(heap: Global, input: &[u8]) -> Result<Ledger, Refusal>
        ensures value { MatchResult result (λ l. ledger_of l ≡ noted_all blank (lines input.now)) (λ e. e ≡ Memory) }
        ensures members { IfOk result (λ l. Exactly (lines input.now) (ledger_of l).names) }
        ensures counts { IfOk result (λ l. Counted (lines input.now) (ledger_of l)) }
    {
        let mut ledger = Ledger::new(heap);
        for line in Lines::of(input) {
            ledger.note(line)?;
        }
        Ok(ledger)
    }
}
