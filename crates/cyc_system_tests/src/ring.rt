//! A thousand expirations between two threads, at most three of them outstanding at a time.

use crate::levels::id;
use cyc_types::{Ceiling, Tally};
use std::test::Fail;
use uses::ring::hand_over;

#[test]
fn each_expiration_is_called_outstanding_or_lost(rt: HostRuntime) -> Result<(), Fail> {
    let id = id(7)?;
    let Some(ceiling) = Ceiling::new(3) else {
        return Err(Fail::from("a ceiling"));
    };
    let calls = Tally::new(rt.alloc(), id, 1, u64::MAX)?;
    let left = hand_over(&rt, rt.alloc(), ceiling, id, 1_000, calls)?;
    assert_eq!(&rt; left.book.sent, 1_000);
    assert_eq!(&rt; left.calls.count(id), Some(left.book.done));
    Ok(())
}
