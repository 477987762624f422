//! What the steps before one leave to it.

ghost use Rattle.std.specs.Prelude.{◌≡◌};
ghost use Rattle.cyc_script.specs.Steps.{first_context};

use crate::names::Names;
use std::alloc::Global;

/// What the steps before one leave to it.
#[derive(Drop)]
pub(crate) struct Context<'a> {
    /// The names that they introduced.
    pub(crate) names: Names<'a>,
    /// The moment of the last `advance`, or 0, in nanoseconds.
    pub(crate) moment: u64,
}

impl<'a> Context<'a> {
    /// Makes it that of a script's first step.
    pub(crate) fn begin(&mut self, alloc: Global)
        ensures { self.new ≡ first_context }
    {
        self.names.clear(alloc);
        self.moment = 0;
    }
}
