//! All refusals, with their numbers and texts, and the report of a juggle.

ghost use Rattle.std.specs.Prelude.{◌≡◌};
ghost use Rattle.cyc_types.specs.Refusals.{number_of};
ghost use Rattle.cyc_types.specs.declared.refusal.Refusal.TheVariants.{Memory};

use crate::id::CyclicId;
use std::alloc::{AllocError, AllocFailed};
use std::error::Error;
use std::fmt;

/// What a juggle of one CPU did: the cyclics that moved, and those that stayed, with the reason (`cyclic_juggle`).
#[derive(Clone, Copy, Debug, PartialEq, Eq)]
pub struct JuggleReport {
    /// Cyclics that moved to another CPU.
    pub moved: u32,
    /// Cyclics that stayed because they are bound.
    pub bound: u32,
    /// Cyclics that stayed because calls of them are outstanding.
    pub pending: u32,
    /// Cyclics that stayed because their destination refused them.
    pub refused: u32,
}

/// Why a call refused. The text is the name alone.
#[derive(Clone, Copy, Debug, PartialEq, Eq)]
pub enum Refusal {
    /// A growth of memory was refused.
    Memory,
    /// The start is negative.
    BadWhen,
    /// The interval is below 1.
    BadInterval,
    /// The moment of a fire is never.
    BadNow,
    /// The CPU holds as many cyclics as it can.
    Full,
    /// A soft level has not yet followed the last switch of banks.
    Expanding,
    /// The removal of this cyclic is open.
    Busy(CyclicId),
    /// There is no such cyclic here.
    NoCyclic,
    /// Calls of the cyclic are outstanding.
    Pending,
    /// Every id was given.
    IdsSpent,
    /// The cyclic has expired as often as it may.
    CountSpent(CyclicId),
    /// The handler of this cyclic refused its call.
    HandlerRefused(CyclicId),
    /// There is no such CPU.
    NoCpu,
    /// The CPU is offline.
    Offline,
    /// The CPU is the last one online.
    LastCpu,
    /// The cyclic is omnipresent.
    Omnipresent,
    /// Cyclics stayed on a CPU that was to go offline.
    Left(JuggleReport),
    /// The script is no JSON text.
    ScriptSyntax,
    /// This step of the script has not the form of a step.
    ScriptShape(u32),
    /// This step of the script goes back in time.
    TimeBack(u32),
    /// This step of the script gives a name for the second time.
    NameTwice(u32),
    /// This step of the script uses a name that was not given.
    NoName(u32),
    /// The CPU is online.
    Online,
    /// The clock is suspended.
    Suspended,
    /// The clock is not suspended.
    NotSuspended,
}

impl Refusal {
    /// The number of the refusal, by which programs tell it. No refusal has the number 18.
    pub fn number(&self) -> u8
        ensures { result ≡ number_of self.now }
    {
        match self {
            Refusal::Memory => 1,
            Refusal::BadWhen => 2,
            Refusal::BadInterval => 3,
            Refusal::BadNow => 4,
            Refusal::Full => 5,
            Refusal::Expanding => 6,
            Refusal::Busy(_) => 7,
            Refusal::NoCyclic => 8,
            Refusal::Pending => 9,
            Refusal::IdsSpent => 10,
            Refusal::CountSpent(_) => 11,
            Refusal::HandlerRefused(_) => 12,
            Refusal::NoCpu => 13,
            Refusal::Offline => 14,
            Refusal::LastCpu => 15,
            Refusal::Omnipresent => 16,
            Refusal::Left(_) => 17,
            Refusal::ScriptSyntax => 19,
            Refusal::ScriptShape(_) => 20,
            Refusal::TimeBack(_) => 21,
            Refusal::NameTwice(_) => 22,
            Refusal::NoName(_) => 23,
            Refusal::Online => 24,
            Refusal::Suspended => 25,
            Refusal::NotSuspended => 26,
        }
    }

    /// The name of the refusal.
    fn name(&self) -> &'static str {
        match self {
            Refusal::Memory => "Memory",
            Refusal::BadWhen => "BadWhen",
            Refusal::BadInterval => "BadInterval",
            Refusal::BadNow => "BadNow",
            Refusal::Full => "Full",
            Refusal::Expanding => "Expanding",
            Refusal::Busy(_) => "Busy",
            Refusal::NoCyclic => "NoCyclic",
            Refusal::Pending => "Pending",
            Refusal::IdsSpent => "IdsSpent",
            Refusal::CountSpent(_) => "CountSpent",
            Refusal::HandlerRefused(_) => "HandlerRefused",
            Refusal::NoCpu => "NoCpu",
            Refusal::Offline => "Offline",
            Refusal::LastCpu => "LastCpu",
            Refusal::Omnipresent => "Omnipresent",
            Refusal::Left(_) => "Left",
            Refusal::ScriptSyntax => "ScriptSyntax",
            Refusal::ScriptShape(_) => "ScriptShape",
            Refusal::TimeBack(_) => "TimeBack",
            Refusal::NameTwice(_) => "NameTwice",
            Refusal::NoName(_) => "NoName",
            Refusal::Online => "Online",
            Refusal::Suspended => "Suspended",
            Refusal::NotSuspended => "NotSuspended",
        }
    }
}

impl fmt::Display for Refusal {
    fn fmt<W: fmt::Write>(&self, f: &mut fmt::Formatter<W>) -> fmt::Result {
        f.write_str(self.name())
    }
}

impl Error for Refusal {}

impl From<AllocError> for Refusal {
    ghost from_gives = { λ _ refusal. refusal ≡ Memory };

    fn from(_error: AllocError) -> Refusal {
        Refusal::Memory
    }
}

impl<T: Drop> From<AllocFailed<T>> for Refusal {
    ghost from_gives = { λ _ refusal. refusal ≡ Memory };

    fn from(_error: AllocFailed<T>) -> Refusal {
        Refusal::Memory
    }
}
