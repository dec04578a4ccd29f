//! How a run is played.
ghost use Rattle.std.specs.Prelude.{◌≡◌, None};

/// How a run is played: by how many workers, and what is collected meanwhile.
#[derive(Clone, Copy, Debug, PartialEq, Eq)]
pub struct Settings {
    /// How many threads make steps, 1 to 64.
    pub workers: usize,
    /// For how many ticks a version is kept that is out of date: each time so many were drawn, the
    /// first session of the script collects at a safe point so many below the last timestamp,
    /// between two of its transactions. A transaction that is open for longer may be told `E7`.
    /// None: nothing is collected.
    pub life_time: Option<u64>,
}

impl Settings {
    /// By so many workers, 1 to 64, and nothing is collected.
    pub fn new(workers: usize) -> Settings
        ensures { (result.workers ≡ workers) × (result.life_time ≡ None) }
    {
        Settings {
            workers,
            life_time: None,
        }
    }
}
