//! Over a store of two regions: updates that go well, are tried again or stop.
mod cases;
mod updates;
mod works;
