//! Places that are written out of order.
ghost use Rattle.std.specs.Prelude.{◌≡◌, ◌↔◌, ◌<◌, List, Option, Some, None, map, length, replicate, slice_get, slice_set, slice_index_or, All, IsSome, IsTrue, IfOk};

use crate::filled::Filled;
use crate::marks::{is_marked, mark, no_marks};
use crate::places::Places;
use std::alloc::{AllocError, Global};
use std::marker::Model;

/// Places in one block of memory, each of which is written once, in any order. Seen as a list: for each place its value,
/// or none. Beside the block it keeps one bit a place, and how many are set.
pub struct ScatterBuf<T: Copy> {
    places: Places<T, Global>,
    marks: Vec<u64>,
    count: u32,
    filled: u32,
    heap: Global,
}

impl<T: Copy> Model for ScatterBuf<T> {
    ghost use Rattle.std.specs.Prelude.{◌≡◌, List, Option};
    ghost use Rattle.scatter_buf.specs.Scatter.{IsKept};

    ghost Value = { List (Option T) };

    ghost view = { λ b. b.places.values };

    ghost invariant = { λ b. (b.places.heap ≡ b.heap) × IsKept b.places.values b.marks.items b.count b.filled };
}

impl<T: Copy> ScatterBuf<T> {
    /// `n` empty places. Values of 2 GiB or more each are refused, as if there were no memory.
    pub fn new(alloc: Global, n: u32) -> Result<ScatterBuf<T>, AllocError>
        ensures { IfOk result (λ buffer. buffer ≡ replicate n None) }
    {
        let marks = no_marks(alloc, n)?;
        let places = Places::reserve(&alloc, n as usize)?;
        Ok(ScatterBuf {
            places,
            marks,
            count: n,
            filled: 0,
            heap: alloc,
        })
    }

    /// Writes the value of an empty place.
    pub fn put(&mut self, place: u32, value: T)
        requires empty { slice_get self.old place ≡ Some None }
        ensures { self.new ≡ slice_set self.old place (Some value) }
    {
        self.places.write(place as usize, value);
        mark(&mut self.marks, place);
        self.filled += 1;
    }

    /// Whether a place has its value.
    pub fn is_set(&self, place: u32) -> bool
        requires { place < length self.now }
        ensures { IsTrue result ↔ IsSome (slice_index_or self.now place None) }
    {
        is_marked(&self.marks, place)
    }

    /// Whether each of the places has its value.
    pub fn full(&self) -> bool
        ensures { IsTrue result ↔ All IsSome self.now }
    {
        self.filled == self.count
    }

    /// The values. Nothing is copied.
    pub fn finish(self) -> Filled<T>
        requires full { All IsSome self }
        ensures { self ≡ map Some result }
    {
        let ScatterBuf {
            places,
            marks,
            count,
            filled: _,
            heap,
        } = self;
        drop(marks);
        Filled::new(places, count, heap)
    }
}

impl<T: Copy> Drop for ScatterBuf<T> {
    fn drop(self) {
        let ScatterBuf {
            places,
            marks,
            count,
            filled: _,
            heap,
        } = self;
        drop(marks);
        places.release(&heap, count as usize);
    }
}
