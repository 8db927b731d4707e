ghost use Rattle.std.specs.Prelude.{◌≡◌, IfOk};

use crate::period::Period;
use crate::pool::Pool;
use std::alloc::{AllocError, Global};
use terms::Place;

// The members of a pool in order: going from the first to the next visits each of them once, and nothing else.
pub fn list_members<P: Pool>(heap: Global, pool: &P) -> Result<Vec<Period<Place>>, AllocError>
    ensures { IfOk result (λ list. list.items ≡ P.Pool.members pool.now) }
{
    // A loop and no chain of `successors`: to be collected, a chain has to be known to end, and that of any pool ends only because its members do.
    let mut list = Vec::new(heap);
    let mut at = pool.first();
    while let Some(p) = at {
        list.push(p)?;
        at = pool.next(p);
    }
    Ok(list)
}
