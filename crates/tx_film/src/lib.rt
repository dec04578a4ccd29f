//! A script's run as a film: while it is played, what each line did. Of each line the reply, the
//! requests that regions took and what they answered, what then stands on the keys to which they
//! went, the request that it holds on its way, how far its session then is, and the steps of the
//! machine that came with it.
#![tactic(auto)]

mod film;
mod frame;
mod keys;
mod lines;
mod names;
mod places;
mod question;
mod stop;

pub use film::film_lines;
pub use frame::{Film, Frame, KeyShown};
pub use keys::keys_of;
pub use lines::{lines_of, read_all};
pub use names::{key_named, session_named};
pub use question::RunQuestion;
pub use stop::{ScriptStop, stop_of};
pub use tx_script::bounds_in;
