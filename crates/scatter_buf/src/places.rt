//! Raw memory: the only module of the crate with pointers.
ghost use Rattle.std.specs.Prelude.{◌≡◌, ◌^◌, ◌<◌, List, Option, Some, None, map, length, replicate, slice_get, slice_set, IfOk};
ghost use Rattle.scatter_buf.specs.Memory.{owned, lent};

use std::alloc::{AllocError, Allocator};
use std::marker::{Model, PhantomData, Send, Sync};
use std::mem::{align_of, size_of};
use std::slice;

// Fewer than 2^32 values of at most so many bytes fit a block.
const LARGEST_VALUE: usize = 0x7fff_ffff;

/// Places side by side in one block, each with a value or without, and the right to give the block back.
pub struct Places<T, A: Allocator> {
    start: *mut T,
    by: PhantomData<A>,
    ghost values: { List (Option T) },
    ghost heap: { A },
}

impl<T, A: Allocator> Model for Places<T, A> {
    ghost also_owns = { λ p. owned T.row (A.dealloc_token p.heap) p.start p.values };

    ghost also_shares = { λ p _ κ. lent T.row p.start p.values κ };
}

unsafe impl<T: Send, A: Allocator + Send> Send for Places<T, A> {}

// A `&` to the places does not reach the allocator.
unsafe impl<T: Sync, A: Allocator> Sync for Places<T, A> {}

impl<T, A: Allocator> Places<T, A> {
    /// Empty places in a new block. Values of 2 GiB or more each are refused.
    pub(crate) fn reserve(heap: &A, count: usize) -> Result<Places<T, A>, AllocError>
        requires { count < 2 ^ 32 }
        ensures { IfOk result (λ places. (places.values ≡ replicate count None) × (places.heap ≡ heap.now)) }
    {
        if LARGEST_VALUE < size_of::<T>() {
            return Err(AllocError);
        }
        let Ok(block) = heap.allocate(count * size_of::<T>(), align_of::<T>()) else {
            return Err(AllocError);
        };
        Ok(Places {
            start: block as *mut T,
            by: PhantomData,
        })
    }

    /// Writes the value of an empty place.
    pub(crate) fn write(&mut self, place: usize, value: T)
        requires { slice_get self.old.values place ≡ Some None }
        ensures { (self.new.values ≡ slice_set self.old.values place (Some value)) × (self.new.heap ≡ self.old.heap) }
    {
        unsafe { self.start.add(place).write(value) }
    }

    /// The values, where each of the places has one.
    pub(crate) fn as_slice(&self, count: usize) -> &[T]
        requires { (count ≡ length self.now.values) × ((xs : List T) × (self.now.values ≡ map Some xs)) }
        ensures { self.now.values ≡ map Some result.now }
    {
        unsafe { slice::from_raw_parts(self.start, count) }
    }

    /// Gives the block back. The values in it are forgotten.
    pub(crate) fn release(self, heap: &A, count: usize)
        requires { (count ≡ length self.values) × (self.heap ≡ heap.now) }
    {
        let Places { start, by: _ } = self;
        unsafe {
            heap.deallocate(start as *mut u8, count * size_of::<T>(), align_of::<T>());
        }
    }
}
