//! For tests of what stands on stores: a store of some regions (`open`), a way to it that loses,
//! delays and repeats requests, or by which memory is refused for them (`Faulty`), and families
//! whose calls are watched (`Watched`).
#![tactic(auto)]

mod faulty;
mod refusals;
mod rendezvous;
mod store;
mod watched;

pub use faulty::{Delivery, Faulty};
pub use refusals::Refusing;
pub use rendezvous::Rendezvous;
pub use store::{one_bound, open};
pub use watched::{Call, Watch, Watched};
