//! Places that all have their values.
ghost use Rattle.std.specs.Prelude.{◌≡◌, [], List, Some, map, length, IsTrue, ◌↔◌, All, IsSome};

use crate::places::Places;
use std::alloc::Global;
use std::marker::Model;

/// What was put into a [`ScatterBuf`](crate::ScatterBuf), place by place. Seen as the list of the values.
pub struct Filled<T: Copy> {
    places: Places<T, Global>,
    count: u32,
    heap: Global,
}

impl<T: Copy> Model for Filled<T> {
    ghost use Rattle.std.specs.Prelude.{◌≡◌, List, Some, map, length};
    ghost use Rattle.scatter_buf.specs.Scatter.{values_of};

    ghost Value = { List T };

    ghost view = { λ f. values_of f.places.values };

    ghost invariant = { λ f. (f.places.heap ≡ f.heap) × (length f.places.values ≡ f.count) × (f.places.values ≡ map Some (values_of f.places.values)) };
}

impl<T: Copy> Filled<T> {
    pub(crate) fn new(places: Places<T, Global>, count: u32, heap: Global) -> Filled<T>
        requires heap { places.heap ≡ heap }
        requires size { length places.values ≡ count }
        requires full { All IsSome places.values }
        ensures { places.values ≡ map Some result }
    {
        Filled {
            places,
            count,
            heap,
        }
    }

    pub fn as_slice(&self) -> &[T]
        ensures { result.now ≡ self.now }
    {
        self.places.as_slice(self.count as usize)
    }

    pub fn len(&self) -> u32
        ensures { result ≡ length self.now }
    {
        self.count
    }

    pub fn is_empty(&self) -> bool
        ensures { IsTrue result ↔ (self.now ≡ []) }
    {
        self.count == 0
    }
}

impl<T: Copy> Drop for Filled<T> {
    fn drop(self) {
        let Filled {
            places,
            count,
            heap,
        } = self;
        places.release(&heap, count as usize);
    }
}
