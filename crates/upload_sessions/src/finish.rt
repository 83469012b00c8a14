//! What finishing an upload comes to.
use crate::Sealed;
use depot_api::Stage;
use reg_claims::Held;
use reg_entries::{Reply, Trouble};

/// What finishing an upload comes to. The claim comes back in every case.
pub enum Finish<S: Stage> {
    /// The blob stands, and the repository links it.
    Done {
        held: Held,
        reply: Reply,
    },
    /// It is refused: nothing changed, and the sealed bytes come back.
    Back {
        held: Held,
        sealed: Sealed<S>,
        reply: Reply,
    },
    /// A trouble: the sealed bytes come back where nothing changed.
    Failed {
        held: Held,
        sealed: Option<Sealed<S>>,
        trouble: Trouble,
    },
}
