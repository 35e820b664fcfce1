//! What a registry counts.
use column_reclaim::Registry;
use column_types::NoMemory;
use std::alloc::Global;
use std::test::Fail;

/// Whether two rows are added, one is retained and both are released, and the retained one alone is then listed.
fn lists_what_is_used(alloc: Global) -> Result<bool, NoMemory> {
    let mut registry = Registry::new(alloc);
    registry.reserve(2)?;
    registry.add(1, 'x');
    registry.add(2, 'y');
    registry.retain(&[1]);
    registry.release(&[1, 2]);
    match registry.list() {
        [row] => Ok(row.id == 1 && row.count == 1 && row.item == 'x'),
        _ => Ok(false),
    }
}

#[test]
fn registry_counts(rt: HostRuntime) -> Result<(), Fail> {
    assert!(rt; lists_what_is_used(rt.alloc())?);
    Ok(())
}
