//! What is reported of each name.

ghost use Rattle.std.specs.Prelude.{◌≡◌, All, IfOk};
ghost use Rattle.cyc_system_workers.specs.Settled.{AllSettled};
ghost use Rattle.cyc_words.specs.Names.{named_at};
ghost use Rattle.cyc_threads.specs.Counting.{AsksTotalsOf, TellsOf, Reports, no_line, receipt_line, totals_line};

use crate::progress::{Progress, sound};
use cyc_agreement::SystemTotals;
use cyc_types::{CyclicId, Raise, Receipt};
use cyc_words::Named;
use std::alloc::{AllocError, Global};

/// The counts of one name's cyclic, over all CPUs and all of its stays.
#[derive(Clone, Copy)]
pub struct Line {
    /// The expirations.
    pub expired: u128,
    /// Those of them that were lost at the ceiling.
    pub lost: u128,
    /// The calls that are outstanding.
    pub pending: u64,
}

/// The line of what the system answered.
fn totals_line(answer: Option<SystemTotals>) -> Line
    ensures { result ≡ totals_line answer }
{
    match answer {
        None => Line {
            expired: 0,
            lost: 0,
            pending: 0,
        },
        Some(totals) => Line {
            expired: totals.expired,
            lost: totals.lost,
            pending: totals.pending,
        },
    }
}

/// The line of a removed cyclic.
fn receipt_line(receipt: Receipt) -> Line
    ensures { result ≡ receipt_line receipt }
{
    Line {
        expired: receipt.sent,
        lost: receipt.lost,
        pending: 0,
    }
}

/// Asks for the totals of a cyclic.
fn ask<R: Raise, C>(progress: &mut Progress<R, C>, id: CyclicId) -> Line
    ensures did { AsksTotalsOf R.Raise id result progress.old progress.new }
    ensures names { progress.new.names ≡ progress.old.names }
{
    let answer = progress.side.system.totals(id);
    sound(&progress.side.system);
    totals_line(answer)
}

/// The line of the name of this number.
fn line_of<R: Raise, C>(progress: &mut Progress<R, C>, name: usize) -> Line
    ensures did { TellsOf R.Raise (named_at progress.old.names name) result progress.old progress.new }
    ensures names { progress.new.names ≡ progress.old.names }
{
    match progress.names.at(name) {
        Named::Nothing => totals_line(None),
        Named::Cyclic(id) => ask(progress, id),
        Named::Leaving(id) => ask(progress, id),
        Named::Removed(receipt) => receipt_line(receipt),
    }
}

/// The line of each name, in order: the totals of a cyclic that is here, what the receipt of its removal has, and zeros for a
/// name whose add was refused. Where every CPU has settled nothing is pending, and they have settled after it. Its memory may be
/// refused.
pub fn report<R: Raise, C>(
    alloc: Global,
    progress: &mut Progress<R, C>,
) -> Result<Vec<Line>, AllocError>
    ensures lines { IfOk result (λ lines. Reports R.Raise lines.items progress.old progress.new) }
    ensures settled { AllSettled R.view progress.old.side.system.cpus.cpus
        → AllSettled R.view progress.new.side.system.cpus.cpus }
    ensures quiet { AllSettled R.view progress.old.side.system.cpus.cpus
        → IfOk result (λ lines. All (λ l. l.pending ≡ 0) lines.items) }
{
    let mut lines = Vec::with_capacity(alloc, progress.names.len())?;
    for name in 0..progress.names.len() {
        lines.push_reserved(line_of(progress, name));
    }
    Ok(lines)
}
