//! Where a sink stood, and what text it was given since. It takes no room: contracts alone know of it.

ghost use Rattle.std.specs.Prelude.{◌≡◌, ◌++◌, [], ℕ, List, Option};
ghost use base.Fml.{ftrue};

use pv_io::Sink;
use std::marker::Model;

/// What a sink had taken, its count of faults, and the text that it was given since.
#[derive(Drop)]
pub(crate) struct Mark {
    pub(crate) ghost taken: { Option (List ℕ) },
    pub(crate) ghost faults: { ℕ },
    pub(crate) ghost text: { List ℕ },
}

impl Model for Mark {
    ghost also_owns = { λ _. ftrue };
}

impl Mark {
    /// Where the sink stands now.
    pub(crate) fn at<O: Sink>(_out: &O) -> Mark
        ensures { (result.taken ≡ O.taken _out.now) × (result.faults ≡ O.faults _out.now) × (result.text ≡ []) }
    {
        Mark {}
    }

    /// With these bytes more.
    pub(crate) fn and(&self, _bytes: &&[u8]) -> Mark
        ensures { (result.taken ≡ self.now.taken) × (result.faults ≡ self.now.faults) × (result.text ≡ self.now.text ++ _bytes.now.now) }
    {
        Mark {}
    }
}
