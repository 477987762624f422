//! The report of a run as one text.

ghost use Rattle.std.specs.Prelude.{◌≡◌, map, string_bytes, IfOk};
ghost use Rattle.cyc_threads.specs.Reporting.{counts_told, report_text};

use crate::counting::Line;
use cyc_text::{Counts, write_report};
use std::alloc::{AllocError, Global};

/// What the report says of a name: its calls are the expirations that were not lost.
fn counts_of(line: &Line) -> Counts
    ensures { result ≡ counts_told line.now }
{
    Counts {
        expired: line.expired,
        called: line.expired.saturating_sub(line.lost),
        lost: line.lost,
        pending: line.pending,
    }
}

/// The text of a report: a line for each name, in order. Its memory may be refused.
pub(crate) fn report_text(
    alloc: Global,
    names: &[String],
    lines: &[Line],
) -> Result<String, AllocError>
    ensures { IfOk result (λ text. string_bytes text ≡ report_text (map string_bytes names.now) lines.now) }
{
    let mut text = String::new(alloc);
    let mut line = String::new(alloc);
    for position in 0..names.len().min(lines.len()) {
        write_report(
            &mut line,
            names[position].as_str(),
            &counts_of(&lines[position]),
        )?;
        text.push_str(line.as_str())?;
    }
    Ok(text)
}
