// Pools: sets of periods from place to place, in a make that the user chooses.
#![tactic(auto)]

mod bits;
mod grid;
mod grid_pool;
mod list;
mod measure;
mod period;
mod pool;
mod scan;
mod size;
mod walk;

pub use grid::GridPool;
pub use list::ListPool;
pub use measure::check_measure;
pub use period::Period;
pub use pool::Pool;
pub use size::Size;
pub use walk::list_members;
