//! A played script as rows: each line's step and reply in words, the reason of a refusal, to which
//! keys its requests went, what regions read, and what changed of each key. Rows are made of the
//! script's lines and of the film of their play, and of nothing else.
#![tactic(auto)]

mod arrows;
mod change;
mod changes;
mod key_state;
mod machine;
mod reads;
mod reason;
mod reply;
mod row;
mod sessions;
mod sheet;
mod signs;
mod step;
mod values;
mod walk;
mod words;

pub use change::is_same_lock;
pub use key_state::{Kind, SeenLock, SeenRecord};
pub use row::{Change, KeyColumn, KeyRead, Row, RowKind, Sending, Session, Sheet, Target};
pub use sheet::sheet_of;
pub use words::{places, put_first, put_number, put_stamp, shown};
