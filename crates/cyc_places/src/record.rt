//! What a system keeps of a cyclic.

ghost use Rattle.std.specs.Prelude.{◌≡◌, ◌*◌, ◌^◌, ◌<◌, ◌≤◌, sum_by, length};
ghost use Rattle.cyc_types.specs.Limits.{most_cpus};

use cyc_types::{CPUS, CyclicId, Level, Moment, Sent, When};

/// Where a cyclic is (`cyc_id_t` of sys/cyclic_impl.h).
#[derive(Clone, Copy)]
pub enum Placement {
    /// On the CPU of this number; one that is bound stays there when the CPU's cyclics are moved.
    On { cpu: u32, bound: bool },
    /// On every online CPU: a component on each, of which that of CPU `c` starts `c` times the skew later.
    Everywhere { when: When, skew: Moment },
}

impl Placement {
    ghost use Rattle.cyc_places.specs.Places.{is_everywhere};

    /// Whether the cyclic is on every online CPU.
    pub fn is_everywhere(&self) -> bool
        ensures { result ≡ is_everywhere self.now }
    {
        match self {
            Placement::On { cpu: _, bound: _ } => false,
            Placement::Everywhere { when: _, skew: _ } => true,
        }
    }
}

/// What a system keeps of a cyclic beside what its CPUs have of it.
#[derive(Clone, Copy)]
pub struct Record {
    /// Its id, which never changes.
    pub id: CyclicId,
    /// At which level its handler is called.
    pub level: Level,
    /// Where it is.
    pub placement: Placement,
    /// By the number of the CPU, the counts of its stays that have ended there (our own).
    pub ended: [Sent; CPUS as usize],
}

impl Record {
    /// What a box holds before a record is put in.
    pub(crate) const VACANT: Record = Record {
        id: CyclicId::LAST,
        level: Level::High,
        placement: Placement::On {
            cpu: 0,
            bound: false,
        },
        ended: [Sent { sent: 0, lost: 0 }; CPUS as usize],
    };

    /// All expirations of the stays that have ended.
    pub fn ended_sent(&self) -> u128
        ensures value { result ≡ sum_by (λ s. s.sent) self.now.ended }
        ensures few { result < most_cpus * 2 ^ 64 }
    {
        let mut total = 0;
        for counts in &self.ended {
            total += u128::from(counts.sent);
        }
        total
    }

    /// Those of them that were lost at the ceiling.
    pub fn ended_lost(&self) -> u128
        ensures value { result ≡ sum_by (λ s. s.lost) self.now.ended }
        ensures few { result < most_cpus * 2 ^ 64 }
    {
        let mut total = 0;
        for counts in &self.ended {
            total += u128::from(counts.lost);
        }
        total
    }
}
