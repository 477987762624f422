//! Laws of a run of a script in threads: as a run of calls of a system, what its report says of each name, also in closed form,
//! and what stands on its rings between any two atomic steps; and of calm scripts, whose counts don't depend on how the threads
//! run. The functions here do nothing when they run. Their clauses are the laws, so that they are proved.
#![tactic(auto)]

mod answering;
mod calling;
mod closed_form;
mod giving;
mod leading;
mod meeting;
mod naming;
mod reporting;
mod running;
mod standing;
mod texts;
mod told;

pub use answering::answering_law;
pub use calling::called_law;
pub use closed_form::report_law;
pub use giving::{giving_law, owned_law};
pub use leading::{leading_law, opened_law};
pub use meeting::meeting_law;
pub use naming::named_law;
pub use reporting::reported_law;
pub use running::{calm_expected_law, calm_run_law};
pub use standing::standing_law;
pub use texts::calm_text_law;
pub use told::telling_law;
