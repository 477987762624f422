//! The limits, each in one place.

ghost use Rattle.std.specs.Prelude.{◌≡◌};
ghost use Rattle.cyc_types.specs.Limits.{greatest_bank, cyclics, most_cpus, greatest_ceiling, last_id};
ghost use Rattle.cyc_types.specs.Series.{late};

/// The cyclics that one CPU can hold, which is the number of slots of the greatest bank (our own rule).
pub const CYCLICS: u16 = 4096;

/// The greatest bank of a soft level's buffer; bank `k` has `2^k` slots (our own rule).
pub const GREATEST_BANK: u8 = 12;

/// The CPUs that one system can have (our own rule).
pub const CPUS: u32 = 16;

/// The greatest ceiling of a pend (our own rule).
pub const GREATEST_CEILING: u32 = u32::MAX;

/// The greatest number of a cyclic, so that a buffer entry of 64 bits holds it beside an index (our own rule).
pub const LAST_ID: u64 = (1 << 52) - 1;

/// A cyclic that is later than this, in nanoseconds, skips the expirations that it missed (our own rule).
pub const LATE: u64 = 1_000_000_000;

/// The constants are the limits that the definitions speak of. It does nothing when it runs.
pub fn limits_law()
    ensures cyclics { CYCLICS ≡ cyclics }
    ensures bank { GREATEST_BANK ≡ greatest_bank }
    ensures cpus { CPUS ≡ most_cpus }
    ensures ceiling { GREATEST_CEILING ≡ greatest_ceiling }
    ensures last { LAST_ID ≡ last_id }
    ensures late { LATE ≡ late }
{}
