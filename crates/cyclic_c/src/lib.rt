//! A proved CPU for programs in C: a static library with one export for each call (include/cyclic.h).
//!
//! Each export calls one function of the library and states its clauses again. No proved code calls C: a handler is called by
//! the caller, between an export that names its cyclic and one that counts the call. A handle owns its CPU behind a pointer
//! whose type C does not see.
#![tactic(auto)]

pub mod answers;
pub mod exports;
pub mod exports_firing;
pub mod exports_pair;
pub mod handle;
pub mod handle_books;
pub mod handle_firing;
pub mod handle_soft;
pub mod loose;
pub mod out_parameter;
pub mod records;
pub mod sealed;
pub mod sealed_books;
pub mod sealed_firing;
pub mod sealed_soft;
pub mod suspending;
pub mod version;
