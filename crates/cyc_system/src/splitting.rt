//! The firing sides go, and come back.

ghost use Rattle.std.specs.Prelude.{◌≡◌};

use crate::system::System;
use cyc_agreement::Cpus;
use cyc_cpu::Hard;
use cyc_places::Records;
use cyc_types::Raise;
use std::marker::Model;
use std::snapshot::Snapshot;

/// What is left of a system while the firing sides of its CPUs are away, each in a thread of its own: where each cyclic is, which
/// CPUs are online and the id that was given last. Contracts see it as the system that was split.
#[derive(Drop)]
pub struct Desk<R: Raise> {
    records: Records,
    last: u64,
    online: Vec<bool>,
    // what the CPUs were as they left; it has no bytes
    left: Snapshot<Cpus<R>>,
}

impl<R: Raise> Model for Desk<R> {
    ghost use Rattle.std.specs.Prelude.{◌≡◌, ◌≤◌};
    ghost use Rattle.cyc_types.specs.Limits.{last_id};
    ghost use Rattle.cyc_agreement.specs.System.{SystemView};
    ghost use Rattle.cyc_agreement.specs.Holding.{Holds};

    ghost Value = { SystemView R };

    ghost view = { λ d. record { cpus = d.left.value; records = d.records.list; last = d.last } };

    ghost invariant = { λ d. Holds (record { cpus = d.left.value; records = d.records.list; last = d.last }) × (d.last ≤ last_id)
        × (d.online.items ≡ d.left.value.online) };
}

impl<R: Raise> System<R> {
    /// Lets the firing sides go, by the numbers of their CPUs. What stays can take them back. Takes no memory.
    pub fn split(self) -> (Desk<R>, Vec<Hard<R>>)
        ensures desk { result.0 ≡ self }
        ensures cpus { result.1.items ≡ self.cpus.cpus }
    {
        let System {
            cpus,
            records,
            last,
        } = self;
        let left = Snapshot::of(&cpus);
        let (hards, online) = cpus.into_parts();
        let desk = Desk {
            records,
            last,
            online,
            left,
        };
        (desk, hards)
    }
}

impl<R: Raise> Desk<R> {
    ghost use Rattle.cyc_system.specs.Splitting.{AllComeBack};

    /// Which CPUs are online, by their numbers.
    pub fn online(&self) -> &[bool]
        ensures { result.now ≡ self.now.cpus.online }
    {
        self.online.as_slice()
    }

    /// Takes the firing sides back, in the order in which they left: the system with what they are now. Whatever a fire or
    /// `settled` makes of them, `away_law` says that they may come back. Takes no memory.
    pub fn unite(self, hards: Vec<Hard<R>>) -> System<R>
        requires { AllComeBack R.view self.cpus.cpus hards.items }
        ensures { result ≡ record {
          cpus = record { cpus = hards.items; online = self.cpus.online };
          records =
              self.records;
          last = self.last;
        } }
    {
        let Desk {
            records,
            last,
            online,
            left: _left,
        } = self;
        let cpus = Cpus::from_parts(hards, online);
        System {
            cpus,
            records,
            last,
        }
    }
}
