//! The lines of a text, to the byte.

ghost use Rattle.std.specs.Prelude.{◌≡◌, OnOk, string_bytes};
ghost use Rattle.cyc_text.specs.Lines.{accepted, refused, fired, ran, removed, kept, shared, moved, cyclics_left, reported};

use cyc_types::JuggleReport;
use std::alloc::AllocError;
use std::fmt::Write;

/// The counts of a name: its expirations, the calls made, and those lost and outstanding.
#[derive(Clone, Copy, Debug, Default, PartialEq, Eq)]
pub struct Counts {
    pub expired: u128,
    pub called: u128,
    pub lost: u128,
    pub pending: u64,
}

/// Replaces the line by `STEP ok`: the step was accepted.
#[tactic(auto, unfolding(crate::specs::Lines::accepted))]
pub fn write_accepted(line: &mut String, step: u32) -> Result<(), AllocError>
    ensures { OnOk result (string_bytes line.new ≡ accepted step) }
{
    line.clear();
    write!(line, "{step} ok\n")
}

/// Replaces the line by `STEP refused NUMBER`, with the number of the refusal.
#[tactic(auto, unfolding(crate::specs::Lines::refused))]
pub fn write_refused(line: &mut String, step: u32, number: u8) -> Result<(), AllocError>
    ensures { OnOk result (string_bytes line.new ≡ refused step number) }
{
    line.clear();
    write!(line, "{step} refused {number}\n")
}

/// Replaces the line by `STEP fired EXPIRED lost LOST`: what an advance of the clock did.
#[tactic(auto, unfolding(crate::specs::Lines::fired))]
pub fn write_fired(
    line: &mut String,
    step: u32,
    expired: u128,
    lost: u128,
) -> Result<(), AllocError>
    ensures { OnOk result (string_bytes line.new ≡ fired step expired lost) }
{
    line.clear();
    write!(line, "{step} fired {expired} lost {lost}\n")
}

/// Replaces the line by `STEP ran CALLS idle` or `STEP ran CALLS more`: what a soft interrupt did.
#[tactic(auto, unfolding(crate::specs::Lines::ran))]
pub fn write_ran(line: &mut String, step: u32, calls: u32, idle: bool) -> Result<(), AllocError>
    ensures { OnOk result (string_bytes line.new ≡ ran step calls idle) }
{
    line.clear();
    let end = if idle { "idle" } else { "more" };
    write!(line, "{step} ran {calls} {end}\n")
}

/// Replaces the line by `STEP removed NAME CALLS`: the removal has answered, with all its calls.
#[tactic(auto, unfolding(crate::specs::Lines::removed))]
pub fn write_removed(
    line: &mut String,
    step: u32,
    name: &str,
    calls: u128,
) -> Result<(), AllocError>
    ensures { OnOk result (string_bytes line.new ≡ removed step name.now calls) }
{
    line.clear();
    write!(line, "{step} removed {name} {calls}\n")
}

/// Replaces the line by `STEP kept CALLS`: the removal waits for the calls that are outstanding.
#[tactic(auto, unfolding(crate::specs::Lines::kept))]
pub fn write_kept(line: &mut String, step: u32, calls: u64) -> Result<(), AllocError>
    ensures { OnOk result (string_bytes line.new ≡ kept step calls) }
{
    line.clear();
    write!(line, "{step} kept {calls}\n")
}

/// Replaces the line by the step, a verb and what became of the cyclics of a CPU.
fn write_shares(
    line: &mut String,
    step: u32,
    verb: &str,
    shares: &JuggleReport,
) -> Result<(), AllocError>
    ensures { OnOk result (string_bytes line.new ≡ shared step verb.now shares.now) }
{
    let (moved, bound, pending, refused) = (
        shares.moved,
        shares.bound,
        shares.pending,
        shares.refused,
    );
    line.clear();
    write!(
        line,
        "{step}{verb}{moved} bound {bound} pending {pending} refused {refused}\n"
    )
}

/// Replaces the line by `STEP moved M bound B pending P refused R`: what a juggle did.
#[tactic(auto, unfolding(crate::specs::Lines::moved))]
pub fn write_moved(line: &mut String, step: u32, shares: &JuggleReport) -> Result<(), AllocError>
    ensures { OnOk result (string_bytes line.new ≡ moved step shares.now) }
{
    write_shares(line, step, " moved ", shares)
}

/// Replaces the line by `STEP left moved M bound B pending P refused R`: cyclics were left on the CPU.
#[tactic(auto, unfolding(crate::specs::Lines::cyclics_left))]
pub fn write_left(line: &mut String, step: u32, shares: &JuggleReport) -> Result<(), AllocError>
    ensures { OnOk result (string_bytes line.new ≡ cyclics_left step shares.now) }
{
    write_shares(line, step, " left moved ", shares)
}

/// Replaces the line by `NAME expired E called C lost L pending P`, the report of a name.
#[tactic(auto, unfolding(crate::specs::Lines::reported))]
pub fn write_report(line: &mut String, name: &str, counts: &Counts) -> Result<(), AllocError>
    ensures { OnOk result (string_bytes line.new ≡ reported name.now counts.now) }
{
    let (expired, called, lost, pending) = (
        counts.expired,
        counts.called,
        counts.lost,
        counts.pending,
    );
    line.clear();
    write!(
        line,
        "{name} expired {expired} called {called} lost {lost} pending {pending}\n"
    )
}
