//! A region shows what it keeps of a key, and the network what it holds, with no event.
ghost use Rattle.std.specs.Prelude.{◌≡◌, option_map};
ghost use Rattle.tx_core.specs.Worlds.{route};
ghost use Rattle.tx_network.specs.Networks.{Showed, Displays, body_at};

use super::Network;
use tx_cells::{Families, ShownKey};
use tx_core::Body;
use tx_journal::{JournalId, Told};
use tx_region::Region;
use tx_types::{Fault, Key};

// A region shows a key, having learnt what is newest; what it then knows is the newest.
fn show_at<J: JournalId, F: Families>(
    region: &mut Region<J, F>,
    newest: &mut Told<J>,
    key: &Key,
) -> Result<ShownKey, Fault>
    ensures { Showed region.old newest.old key.now result region.new newest.new }
{
    let told = region.copy(newest);
    region.learn(told);
    *newest = region.tell();
    region.cells_of(key)
}

impl<J: JournalId, F: Families> Network<J, F> {
    /// What the region of a key keeps of it. Memory for that may be refused.
    pub fn show_key(&mut self, key: &Key) -> Result<ShownKey, Fault>
        ensures { Displays (route J.bounds key.now) self.old self.new key.now result }
    {
        let index = self.index(key);
        show_at(&mut self.regions[index], &mut self.newest, key)
    }
    /// What the request asks that is held under a name, where one is.
    pub fn held_body(&self, name: &str) -> Option<&Body>
        ensures { option_map (λ body. body.now) result ≡ body_at self.now.held name.now }
    {
        match self.held.get(name) {
            Some(request) => Some(request.body()),
            None => None,
        }
    }
}
