//! Laws of moves.
ghost use Rattle.std.specs.Prelude.{◌≡◌, ℕ, List, IsTrue};
ghost use Rattle.depot_api.specs.Stages.{Staged};
ghost use Rattle.files_service.specs.Finishing.{done};
ghost use Rattle.reg_claims.specs.declared.claim.Held.{Held};
ghost use Rattle.reg_entries.specs.declared.reply.Reply.{Reply};
ghost use Rattle.reg_names.specs.Digests.{IsDigest};
ghost use Rattle.reg_names.specs.Names.{IsName};
ghost use Rattle.reg_world.specs.Laws.{HasBlob, Refuses};
ghost use Rattle.reg_world.specs.Moves.{Act, Seen, Move, Stays, came_to, finishes};
ghost use Rattle.reg_world.specs.Worlds.{Data};

/// What is refused leaves the world as it was: what its depot holds, and the claims.
pub fn refusals_change_nothing()
    ensures { (w v : Data) (act : Act) (seen : Seen) → Move w act seen v → Refuses seen → Stays w v }
{}

/// The staged bytes of an upload that was finished are its digest's, unless that had some, and the repository links it.
pub fn finished_uploads_are_blobs()
    ensures { (w v : Data) (held : Held) (staged : Staged) (digest : List ℕ) (reply : Reply)
        → IsTrue w.held.tells → IsName held.name → IsDigest digest
        → Move w (finishes held staged digest) (came_to (done reply)) v
        → HasBlob w.held.files v.held.files held.name digest staged }
{}
