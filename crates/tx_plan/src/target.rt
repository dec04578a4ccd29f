//! Where a request goes.
ghost use Rattle.std.specs.Prelude.{◌≡◌};
ghost use Rattle.tx_plan.specs.Targets.{by_parts, target};

use crate::body::{Body, Scan};
use tx_types::{Key, RegionNo};

/// What a request is of: a key, the keys of a range, or a region that it names.
#[derive(Clone, Copy, Debug, Drop)]
pub enum Target<K, R> {
    Key(K),
    Range(R),
    Region(RegionNo),
}

impl Body {
    /// What the request is of. Each request runs through it.
    #[inline(always)]
    pub fn target(&self) -> Target<&Key, &Scan>
        ensures { by_parts (λ key. key.now) (λ scan. scan.now) result ≡ target self.now }
    {
        match self {
            Body::Get(body) => Target::Key(&body.key),
            Body::Scan(body) => Target::Range(body.asked()),
            Body::Prewrite(body) => Target::Key(&body.asked().key),
            Body::Commit(body) => Target::Key(&body.key),
            Body::BatchRollback(body) => Target::Key(&body.key),
            Body::TxnHeartBeat(body) => Target::Key(&body.key),
            Body::CheckTxnStatus(body) => Target::Key(&body.key),
            Body::CheckSecondaryLocks(body) => Target::Key(&body.key),
            Body::ResolveLock(body) => Target::Key(&body.key),
            Body::RaiseSafe(body) => Target::Region(body.region),
            Body::LocksBelow(body) => Target::Region(body.region),
            Body::Collect(body) => Target::Region(body.region),
        }
    }
}
