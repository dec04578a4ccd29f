//! A part of a sheet: the rows of some lines and sessions, and some keys. Rows are those of the
//! sheet, none of them changed; what is left out between them is told of locks, so that a picture
//! of the part has each lock from where it stands.
#![tactic(auto)]

mod cut;
mod hidden_lock;
mod lives;
mod part;
mod rows;

pub use cut::Cut;
pub use hidden_lock::HiddenLock;
pub use lives::Life;
pub use part::{Part, part_of, whole_of};
pub use rows::ShownRow;
pub use tx_sheet::{
    Change, KeyColumn, KeyRead, Kind, Row, RowKind, SeenLock, SeenRecord, Sending, Session, Sheet,
    Target, is_same_lock, places, put_first, put_number, put_stamp, sheet_of, shown,
};
