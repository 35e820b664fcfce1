//! A caller that meets the conditions.
ghost use Rattle.std.specs.Prelude.{◌≡◌, [], ◌∷◌, IfOk};

use crate::filled::Filled;
use crate::scatter::ScatterBuf;
use std::alloc::{AllocError, Global};

/// The values 10, 20 and 30, the last written first.
pub fn three_out_of_order(alloc: Global) -> Result<Filled<u32>, AllocError>
    ensures { IfOk result (λ values. values ≡ 10 ∷ 20 ∷ 30 ∷ []) }
{
    let mut buffer = ScatterBuf::new(alloc, 3)?;
    buffer.put(2, 30);
    buffer.put(0, 10);
    buffer.put(1, 20);
    Ok(buffer.finish())
}
