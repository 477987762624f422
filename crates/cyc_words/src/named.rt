//! What each name of a script has.

ghost use Rattle.std.specs.Prelude.{◌≡◌, ℕ, slice_set, replicate, length, IfOk, IfSome, IfNone, false};
ghost use Rattle.cyc_words.specs.declared.named.Named.TheVariants as named;
ghost use Rattle.cyc_words.specs.Names.{named_at, has_open_removal, NoneLeaves};

use cyc_types::{CyclicId, Receipt};
use std::alloc::{AllocError, Global};
use std::marker::Model;

/// What a name of a script has while the script runs.
#[derive(Clone, Copy)]
pub enum Named {
    /// No id: its add has not come yet, or was refused.
    Nothing,
    /// The cyclic of this id.
    Cyclic(CyclicId),
    /// This id, whose removal is open.
    Leaving(CyclicId),
    /// The receipt of its removal.
    Removed(Receipt),
}

/// What each name has, by the names' numbers. Contracts see it as their list.
#[derive(Drop)]
pub struct Names {
    list: Vec<Named>,
    // the removal of no name below this number is open
    from: usize,
}

impl Model for Names {
    ghost use Rattle.std.specs.Prelude.{◌≡◌, ◌<◌, ℕ, List, false};
    ghost use Rattle.cyc_words.specs.declared.named.Named.{Named as OneNamed};
    ghost use Rattle.cyc_words.specs.Names.{named_at, has_open_removal};

    ghost Value = { List OneNamed };

    ghost view = { λ n. n.list.items };

    ghost invariant = { λ n. (name : ℕ) → name < n.from → has_open_removal (named_at n.list.items name) ≡ false };
}

impl Names {
    /// So many names that have nothing. Its memory may be refused.
    pub fn new(alloc: Global, count: usize) -> Result<Names, AllocError>
        ensures { IfOk result (λ names. names ≡ replicate count named.Nothing) }
    {
        let list = vec![in alloc; Named::Nothing; count]?;
        Ok(Names { list, from: 0 })
    }

    /// How many names there are.
    pub fn len(&self) -> usize
        ensures { result ≡ length self.now }
    {
        self.list.len()
    }

    /// What the name of this number has: nothing where there is no such name.
    pub fn at(&self, name: usize) -> Named
        ensures { result ≡ named_at self.now name }
    {
        if name < self.list.len() {
            self.list[name]
        } else {
            Named::Nothing
        }
    }

    /// The name has this from now on, where there is such a name.
    pub(crate) fn set(&mut self, name: usize, now: Named)
        ensures { self.new ≡ slice_set self.old name now }
    {
        if name < self.list.len() {
            self.list[name] = now;
        }
        self.from = self.from.min(name);
    }

    /// The first name whose removal is open, and its id.
    #[tactic(auto, using(crate::proofs::Leaving::none_leaves))]
    pub fn leaving(&mut self) -> Option<(usize, CyclicId)>
        ensures same { self.new ≡ self.old }
        ensures none { IfNone result (NoneLeaves self.old) }
        ensures some { IfSome result (λ r. named_at self.old r.0 ≡ named.Leaving r.1) }
    {
        for name in self.from..self.list.len() {
            if let Named::Leaving(id) = self.list[name] {
                self.from = name;
                return Some((name, id));
            }
        }
        self.from = self.list.len();
        None
    }
}
