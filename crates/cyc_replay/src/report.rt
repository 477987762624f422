//! The report of each name.

ghost use Rattle.std.specs.Prelude.{◌≡◌, ℕ, IfErr, false};
ghost use Rattle.cyc_text.specs.Puts.{Puts};
ghost use Rattle.cyc_text.specs.Lines.{reported};
ghost use Rattle.cyc_text.specs.Status.{is_write, IsMemoryOrWrite};
ghost use Rattle.cyc_types.specs.Tally.{tally_count};
ghost use Rattle.cyc_types.specs.declared.receipt.Receipt.{Receipt};
ghost use Rattle.cyc_model.specs.State.{State};
ghost use Rattle.cyc_model.specs.Places.{id_of};
ghost use Rattle.cyc_model.specs.Report.{counts_of, reports};
ghost use Rattle.cyc_model.specs.Script.{names_of};
ghost use Rattle.cyc_words.specs.declared.named.Named.TheVariants.{Removed};
ghost use Rattle.cyc_system_model.specs.Removal.{told_by_receipt};
ghost use Rattle.cyc_replay.specs.Machine.{ShowsMachine, IsReached};

use crate::machine::{Machine, id_in};
use cyc_script::Script;
use cyc_system_model::{kept_law, report_law};
use cyc_text::{Counts, RunFault, Sink, write_report};
use cyc_types::{CyclicId, Tally};
use cyc_words::Named;

/// The calls of an id's handler.
fn called_by(tally: &Tally, id: CyclicId) -> u64
    ensures { result ≡ tally_count tally.now id }
{
    tally.count(id).unwrap_or(0)
}

/// The counts of a name with no id.
fn no_counts() -> Counts
    ensures { result ≡ record { expired = 0; called = 0; lost = 0; pending = 0 } }
{
    Counts {
        expired: 0,
        called: 0,
        lost: 0,
        pending: 0,
    }
}

/// What the receipt of a name's cyclic leaves to be told, whose handler was called so often.
fn counts_left(named: Named, called: u128) -> Counts
    ensures { (receipt : Receipt) → named ≡ Removed receipt → result ≡ told_by_receipt receipt called }
{
    match named {
        Named::Removed(receipt) => Counts {
            expired: receipt.sent,
            called,
            lost: receipt.lost,
            pending: 0,
        },
        _ => no_counts(),
    }
}

/// The counts of a name's cyclic over all CPUs and all of its stays, with the calls of its handler, also once its removal has
/// answered. All are 0 where no add of the name was accepted.
fn name_counts(machine: &mut Machine, name: usize) -> Counts
    ensures counts { (step : ℕ) (s : State) → IsReached step s → ShowsMachine s machine.old
        → result ≡ counts_of (id_of name s) s }
    ensures holds { (s : State) → ShowsMachine s machine.old → ShowsMachine s machine.new }
{
    report_law();
    kept_law::<Tally>();
    let Some(id) = id_in(machine.names.at(name)) else {
        return no_counts();
    };
    let called = u128::from(called_by(&machine.tally, id));
    let answer = machine.system.totals(id);
    machine.system.law();
    let Some(totals) = answer else {
        return counts_left(machine.names.at(name), called);
    };
    Counts {
        expired: totals.expired,
        called,
        lost: totals.lost,
        pending: totals.pending,
    }
}

/// Puts the report of a name.
fn put_report<S: Sink>(
    machine: &mut Machine,
    line: &mut String,
    sink: &mut S,
    number: usize,
    name: &str,
) -> Result<(), RunFault>
    requires whole { S.has_failed sink.old ≡ false }
    ensures text { (step : ℕ) (s : State) → IsReached step s → ShowsMachine s machine.old
        → Puts (S.written sink.old) (S.written sink.new) result (reported name.now (counts_of (id_of number s) s)) }
    ensures holds { (s : State) → ShowsMachine s machine.old → ShowsMachine s machine.new }
    ensures write { S.has_failed sink.new ≡ is_write result }
    ensures memory { IfErr result IsMemoryOrWrite }
{
    let counts = name_counts(machine, number);
    write_report(line, name, &counts)?;
    sink.put(line.as_bytes())?;
    Ok(())
}

/// Puts the report of each name of a script, in order. The definition's machine shows the machine as before.
///
/// A line is written into `line` first, which takes memory where it needs more than it has.
pub fn put_reports<S: Sink>(
    machine: &mut Machine,
    line: &mut String,
    sink: &mut S,
    script: &Script,
) -> Result<(), RunFault>
    requires whole { S.has_failed sink.old ≡ false }
    ensures text { (step : ℕ) (s : State) → IsReached step s → ShowsMachine s machine.old
        → Puts (S.written sink.old) (S.written sink.new) result (reports 0 (names_of script.now) s) }
    ensures holds { (s : State) → ShowsMachine s machine.old → ShowsMachine s machine.new }
    ensures write { S.has_failed sink.new ≡ is_write result }
    ensures memory { IfErr result IsMemoryOrWrite }
{
    let mut number: usize = 0;
    for name in &script.names {
        put_report(machine, line, sink, number, name.as_str())?;
        number += 1;
    }
    Ok(())
}
