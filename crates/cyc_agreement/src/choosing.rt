//! Where a cyclic goes.

ghost use Rattle.std.specs.Prelude.{◌≡◌, ◌<◌, length, IfSome};
ghost use Rattle.cyc_agreement.specs.Destination.{destination, fewer};

use crate::cpus::Cpus;
use cyc_types::Raise;

impl<R: Raise> Cpus<R> {
    /// Where a new cyclic goes, or one that leaves the source: the online CPU, other than the source, with the fewest cyclics,
    /// and of several the one with the smallest number (our own rule in place of `cyclic_pick_cpu`). None where there is no
    /// such CPU.
    pub fn destination(&self, source: Option<u32>) -> Option<u32>
        ensures { result ≡ destination source self.now }
    {
        let mut best = None;
        for number in (0..self.count()).rev() {
            if self.is_online(number) && Some(number) != source {
                best = Some(self.fewer(number, best));
            }
        }
        best
    }

    /// The first of two CPUs with no more cyclics than the other.
    fn fewer(&self, number: u32, other: Option<u32>) -> u32
        requires number { number < length self.now.cpus }
        requires other { IfSome other (λ m. m < length self.now.cpus) }
        ensures fewer { result ≡ fewer number other self.now }
        ensures within { result < length self.now.cpus }
    {
        match other {
            Some(other) if self.cpu(other).len() < self.cpu(number).len() => other,
            _ => number,
        }
    }
}
