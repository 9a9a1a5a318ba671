// A value on the heap, or in the place of another. All is generic, so that its proof takes nothing apart: where a
// large type is written by name, each write costs as much as a whole function, and more where memory is refused.
ghost use Rattle.std.specs.Prelude.{◌≡◌, IfOk, IfErr};
ghost use Rattle.queue_c.specs.declared.codes.TheConstants.{NO_MEMORY};

use crate::codes::NO_MEMORY;
use std::alloc::Allocator;

/// Drops what is in the place, and puts this value there.
pub fn set<T: Drop>(place: &mut T, value: T)
    ensures { place.new ≡ value }
{
    *place = value;
}

/// The box with this value in it, in place of what it had, which is dropped.
pub fn put<T: Drop, A: Allocator>(mut place: Box<T, A>, value: T) -> Box<T, A>
    ensures { result.value ≡ value }
{
    set(&mut *place, value);
    place
}

/// The value on the heap, or the code of refused memory, and then the value is dropped.
pub fn boxed<T: Drop, A: Allocator>(alloc: A, value: T) -> Result<Box<T, A>, u32>
    ensures ok { IfOk result (λ b. b.value ≡ value) }
    ensures err { IfErr result (λ code. code ≡ NO_MEMORY) }
{
    match Box::new(alloc, value) {
        Ok(boxed) => Ok(boxed),
        Err(_) => Err(NO_MEMORY),
    }
}
