// A ledger as text.
ghost use Rattle.std.specs.Prelude.{◌≡◌, ◌++◌, map, IfOk, vec_items, string_bytes, MatchResult, OnOk};
ghost use Rattle.std.specs.List.{flat_map};
ghost use Rattle.terms.specs.declared.refusal.Refusal.TheVariants.{Memory};
ghost use Rattle.lines.specs.Lines.{lines};
ghost use Rattle.ledger.specs.Ledgers.{long_of, ledger_of, blank, noted_all};
ghost use Rattle.ledger.specs.Reports.{refusal_line, digest_part, entry_line, counts_line, report_of};

use crate::ledger::{Ledger, LongLine};
use hashers::fnv::fnv1a;
use std::alloc::{AllocError, Global};
use terms::refusal::Refusal;

// Adds a line for each line that was refused.
fn add_refused(out: &mut Vec<u8>, refused: &[LongLine]) -> Result<(), AllocError>
    ensures { OnOk result (out.new.items ≡ out.old.items ++ flat_map refusal_line (map long_of refused.now)) }
{
    let heap = *out.allocator();
    let refusal = Refusal::Text;
    for &LongLine { number, bytes } in refused {
        let text = format!(in heap; "line {number}: {refusal}: {bytes} bytes, at most 512\n")?;
        out.extend_from_slice(text.as_bytes())?;
    }
    Ok(())
}

// Adds a line for each name.
fn add_names(out: &mut Vec<u8>, names: &[Vec<u8>]) -> Result<(), AllocError>
    ensures { OnOk result (out.new.items ≡ out.old.items ++ flat_map entry_line (map vec_items names.now)) }
{
    let heap = *out.allocator();
    for name in names {
        out.extend_from_slice(name.as_slice())?;
        let digest = fnv1a(name.as_slice());
        let rest = format!(in heap; " {digest}\n")?;
        out.extend_from_slice(rest.as_bytes())?;
    }
    Ok(())
}

/// The lines that were refused, then the names with their digests, and last the counts.
pub fn report(heap: Global, ledger: &Ledger) -> Result<Vec<u8>, AllocError>
    ensures { IfOk result (λ v. v.items ≡ report_of (ledger_of ledger.now)) }
{
    let mut out = Vec::new(heap);
    add_refused(&mut out, ledger.refused.as_slice())?;
    let names = ledger.catalogue.names();
    add_names(&mut out, names)?;
    let read = ledger.read;
    let kept = names.len();
    let repeated = ledger.repeated;
    let refused = ledger.refused.len();
    let counts = format!(in heap;
        "read {read}, kept {kept}, repeated {repeated}, refused {refused}\n"
    )?;
    out.extend_from_slice(counts.as_bytes())?;
    Ok(out)
}

/// The report on the names that stand one a line in the input.
pub fn settle(heap: Global, input: &[u8]) -> Result<Vec<u8>, Refusal>
    ensures { MatchResult result (λ v. v.items ≡ report_of (noted_all blank (lines input.now))) (λ e. e ≡ Memory) }
{
    let ledger = Ledger::of_input(heap, input)?;
    Ok(report(heap, &ledger)?)
}
