//! The firing side of a level, as a trait.

ghost use Rattle.std.specs.Prelude.{◌≡◌, ℕ, Option, Some, None};
ghost use Rattle.cyc_types.specs.Firing.{FiringView, FiringCall, Admits, Loads, Raises, Marks, Polls, Expands, Looks, Learns};
ghost use Rattle.cyc_types.specs.Firing.{Sound, MayAdmit, MayAsk, MayRaise, MayMark, MayPoll, MayExpand, sent_of};

use crate::id::CyclicId;
use crate::level::Index;

/// What a raise found at the cyclic's pend.
#[derive(Clone, Copy, Debug, PartialEq, Eq)]
pub enum Raised {
    /// The pend was 0: the cyclic was put into its level's buffer.
    First,
    /// Calls were outstanding already: the pend rose, and the cyclic stays where it stands.
    More,
    /// The pend stood at the ceiling: the expiration is lost.
    Lost,
}

/// The counts of one stay of a cyclic, from its `admit` to the `poll_clear` that answers.
#[derive(Clone, Copy, Debug, PartialEq, Eq)]
pub struct Sent {
    /// The expirations.
    pub sent: u64,
    /// Those of them that were lost at the ceiling.
    pub lost: u64,
}

/// The firing side of one level: it raises pends and fills the buffer (`cyclic_expire` of cyclic.c).
///
/// No call takes memory, none waits, and none refuses: what a caller must know is required. Where the soft side runs at
/// the same time, each answer is what one step of the call itself found.
pub trait Raise {
    /// What the holder knows.
    ghost view: { Self → FiringView };

    /// The one value may become the other by this call with its answer.
    ghost step: { Self → FiringCall → Self → Type 0 };

    /// What the holder knows is sound.
    fn law(&self)
        ensures { Sound (view self.now) };

    /// Begins a stay of `id` at `index`, with all counts 0.
    fn admit(&mut self, id: CyclicId, index: Index)
        requires { MayAdmit id index (view self.old) }
        ensures step { step self.old (Admits id index) self.new }
        ensures learns { Learns (view self.old) (Admits id index) (view self.new) }
        ensures sound { Sound (view self.new) };

    /// The calls of `id` that are outstanding: pending, in hand or kept for its removal.
    fn load_pend(&mut self, id: CyclicId) -> u32
        requires { MayAsk id (view self.old) }
        ensures step { step self.old (Loads id result) self.new }
        ensures learns { Learns (view self.old) (Loads id result) (view self.new) }
        ensures sound { Sound (view self.new) };

    /// One expiration of `id`. It counts as sent, and as lost where the pend stood at the ceiling.
    fn raise(&mut self, id: CyclicId) -> Raised
        requires { MayRaise id (view self.old) }
        ensures step { step self.old (Raises id result) self.new }
        ensures learns { Learns (view self.old) (Raises id result) (view self.new) }
        ensures sound { Sound (view self.new) };

    /// Begins the removal of `id`. The answer is the number of calls that were outstanding.
    fn mark(&mut self, id: CyclicId) -> u32
        requires { MayMark id (view self.old) }
        ensures step { step self.old (Marks id result) self.new }
        ensures learns { Learns (view self.old) (Marks id result) (view self.new) }
        ensures sound { Sound (view self.new) };

    /// Ends the stay of the marked `id` and gives its counts, where no call of it is outstanding. Else None.
    fn poll_clear(&mut self, id: CyclicId) -> Option<Sent>
        requires { MayPoll id (view self.old) }
        ensures step { step self.old (Polls id result) self.new }
        ensures learns { Learns (view self.old) (Polls id result) (view self.new) }
        ensures sound { Sound (view self.new) };

    /// Switches the firing side to this greater bank (`cyclic_expand` of cyclic.c).
    fn expand(&mut self, bank: u8)
        requires { MayExpand bank (view self.old) }
        ensures step { step self.old (Expands bank) self.new }
        ensures learns { Learns (view self.old) (Expands bank) (view self.new) }
        ensures sound { Sound (view self.new) };

    /// Whether the soft side is on the firing side's bank. Once true it stays true until `expand`.
    fn followed(&mut self) -> bool
        ensures step { step self.old (Looks result) self.new }
        ensures learns { Learns (view self.old) (Looks result) (view self.new) }
        ensures sound { Sound (view self.new) };

    /// The counts of the present stay of `id`, as the holder knows them.
    fn sent(&self, id: CyclicId) -> Sent
        requires { MayAsk id (view self.now) }
        ensures { sent_of id (view self.now) ≡ Some result };
}
