//! Ids, ceilings and indexes at their bounds.

use cyc_types::{CYCLICS, Ceiling, CyclicId, GREATEST_BANK, Index, LAST_ID, Level, Soft};

fn id_of(number: u64) -> Option<u64> {
    let id = CyclicId::new(number)?;
    Some(id.number())
}

fn id_after(number: u64) -> Option<u64> {
    let id = CyclicId::new(number)?;
    let following = id.following()?;
    Some(following.number())
}

fn index_of(number: u16) -> Option<u16> {
    let index = Index::new(number)?;
    Some(index.number())
}

fn ceiling_of(calls: u32) -> Option<u32> {
    let ceiling = Ceiling::new(calls)?;
    Some(ceiling.calls())
}

const LAST: u64 = 4_503_599_627_370_495;

/// Numbers, each with the id that it gives and the one after it.
static IDS: [(u64, Option<u64>, Option<u64>); 4] = [
    (0, None, None),
    (1, Some(1), Some(2)),
    (LAST, Some(LAST), None),
    (LAST + 1, None, None),
];

#[test]
fn ids_go_from_one_to_the_last(rt: HostRuntime) {
    for &(number, id, following) in &IDS {
        assert_eq!(rt; id_of(number), id, "{number}");
        assert_eq!(rt; id_after(number), following, "{number}");
    }
    assert_eq!(rt; (LAST_ID, CyclicId::LAST.number()), (LAST, LAST));
}

#[test]
fn indexes_and_ceilings_have_their_ranges(rt: HostRuntime) {
    assert_eq!(rt; (index_of(4095), index_of(4096)), (Some(4095), None));
    assert_eq!(rt;
        (ceiling_of(u32::MAX), ceiling_of(0)),
        (Some(4_294_967_295), None)
    );
    assert_eq!(rt; CYCLICS, 1 << GREATEST_BANK);
}

#[test]
fn a_soft_level_is_the_level_of_its_name(rt: HostRuntime) {
    assert_eq!(rt; Level::from(Soft::Low), Level::Low);
    assert_eq!(rt; Level::from(Soft::Lock), Level::Lock);
}
