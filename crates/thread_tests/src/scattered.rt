//! Values that are written out of order.
use scatter_buf::{ScatterBuf, three_out_of_order};
use std::alloc::{AllocError, Global};
use std::test::Fail;

fn come_in_order(alloc: Global) -> Result<bool, AllocError> {
    let values = three_out_of_order(alloc)?;
    Ok(values.as_slice() == [10, 20, 30].as_slice())
}

/// The last of the values is written first.
#[test]
fn scattered_values_come_in_order(rt: HostRuntime) -> Result<(), Fail> {
    assert!(rt; come_in_order(rt.alloc())?);
    Ok(())
}

fn no_places_are_full(alloc: Global) -> Result<bool, AllocError> {
    let buffer = ScatterBuf::<u32>::new(alloc, 0)?;
    Ok(buffer.full())
}

/// A block of no bytes is no out of memory.
#[test]
fn a_buffer_without_places_is_full(rt: HostRuntime) -> Result<(), Fail> {
    assert!(rt; no_places_are_full(rt.alloc())?);
    Ok(())
}
