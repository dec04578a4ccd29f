//! One region. Its records answer each request by its case table, over any families. `Region` joins
//! them with a seat of the journal: each answer is one event of its seat. A request of one key may
//! also be planned outside the region, of a copy of what it sees: the plan is applied where the key
//! is as it was copied.
#![tactic(auto)]

mod applied;
mod attempt;
mod calls;
mod commands;
mod copy;
mod copy_plan;
mod key_copy;
mod records;
mod region;
mod routes;

pub use applied::Applied;
pub use attempt::Attempt;
pub use copy::{KeyView, Loaded, RegionNumbers};
pub use copy_plan::is_of_key;
pub use key_copy::{KeyCopy, Planned};
pub use records::{Executed, Records};
pub use region::Region;
pub use routes::{FrontRanges, fronts, route, route_by};
