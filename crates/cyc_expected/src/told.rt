//! The law of what the report of a script says that each name has expired.

ghost use Rattle.cyc_expected.specs.Told.{MetAsTold};
ghost use Rattle.cyc_expected.specs.Expired.{ExpiredAsExpected};

/// Of each name of a script, on one CPU or omnipresent, whatever indexes its cyclics get: the expirations that its report
/// tells are those of the closed form, read off the script's words and which of them were accepted in that very run: a step
/// that was not has a line that says so, and an `offline` that was has the line of an accepted step.
///
/// It does nothing when it runs: its clauses are the law.
pub fn expired_as_expected()
    ensures met { MetAsTold }
    ensures expired { ExpiredAsExpected }
{}
