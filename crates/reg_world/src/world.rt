//! The devices of a registry, and the calls that are made of them.
ghost use Rattle.std.specs.Prelude.{◌≡◌, IfOk, option_copied};
ghost use Rattle.reg_claims.specs.Claims.{no_claims};
ghost use Rattle.reg_entries.specs.declared.ask.Ask.TheVariants as asks;
ghost use Rattle.reg_model.specs.Blobs.{IsPaired};
ghost use Rattle.upload_sessions.specs.Taking.{IsFresh as IsFreshStage};
ghost use Rattle.files_service.specs.Answers.{IsFresh};
ghost use Rattle.files_service.specs.Finishing.{IsBack, ending_of};
ghost use Rattle.reg_world.specs.Worlds.{shown, keeper_of};
ghost use Rattle.reg_world.specs.Moves.{Seen, Moves, SeesBlob, seen_of, seen_of_take, seen_of_end, answers, starts, pushes, drops, unlinks, locates, takes, shelves, cancels, came_to, finishes, releases, closes, ended};

use depot_api::Depot;
use manifest_doc::Pushed;
use reg_claims::{Claims, Held};
use reg_entries::{Reply, Trouble};
use reg_names::{Digest, Name, Reference, Text, UploadId};
use std::alloc::Global;
use upload_sessions::{Finish, Sealed, Taken};

/// A registry: its depot, the keeper of its tables, and the claims that stand.
#[derive(Drop)]
pub struct World<D, K> {
    depot: D,
    keeper: K,
    claims: Claims,
}

/// Joins the devices of a registry. Nothing is claimed. Takes no memory, and cannot fail.
pub fn begin<D: Depot, K>(alloc: Global, depot: D, keeper: K) -> World<D, K>
    ensures shown { shown D.held D.faults result
        ≡ record { held = D.held depot; faults = D.faults depot; claims = no_claims } }
    ensures keeper { keeper_of result ≡ keeper }
{
    let claims = Claims::new(alloc);
    World {
        depot,
        keeper,
        claims,
    }
}

impl<D: Depot, K> World<D, K> {
    /// The devices, as the last call left them. Takes no memory, and cannot fail.
    pub fn stop(self) -> (D, K)
        ensures held { D.held result.0 ≡ (shown D.held D.faults self).held }
        ensures faults { D.faults result.0 ≡ (shown D.held D.faults self).faults }
        ensures keeper { result.1 ≡ keeper_of self }
    {
        (self.depot, self.keeper)
    }

    /// The manifest that a repository has under a reference, or a refusal (OCI Distribution Specification 1.1, "Pulling
    /// manifests").
    ///
    /// Errors, here and in the calls below: `Trouble::Depot` where the depot's count of faults rose, and
    /// `Trouble::NoMemory`.
    pub fn pull_manifest(
        &mut self,
        alloc: Global,
        name: &Name,
        at: &Option<Reference>,
    ) -> Result<Reply, Trouble>
        ensures moves { Moves (shown D.held D.faults self.old)
            (answers (asks.GetManifest name.now at.now)) (seen_of result)
            (shown D.held D.faults self.new) }
        ensures keeper { keeper_of self.new ≡ keeper_of self.old }
    {
        files_service::pull_manifest(alloc, &mut self.depot, name, at)
    }

    /// A blob that a repository links, of which nothing was read, with the reply that tells its size in bytes, or a
    /// refusal ("Pulling blobs").
    pub fn pull_blob(
        &mut self,
        alloc: Global,
        name: &Name,
        digest: &Digest,
    ) -> Result<(Reply, Option<D::B>), Trouble>
        ensures moves { (seen : Seen) → SeesBlob D.B.rest result seen
            → Moves (shown D.held D.faults self.old) (answers (asks.GetBlob name.now digest.now))
            seen (shown D.held D.faults self.new) }
        ensures paired { IfOk result IsPaired }
        ensures fresh { IsFresh D.B.faults result }
        ensures keeper { keeper_of self.new ≡ keeper_of self.old }
    {
        files_service::pull_blob(alloc, &mut self.depot, name, digest)
    }

    /// The tags of a repository that are greater than `last`, and at most `n` of them, or a refusal ("Listing Tags").
    pub fn list_tags(
        &mut self,
        alloc: Global,
        name: &Name,
        n: Option<u64>,
        last: Option<&Text>,
    ) -> Result<Reply, Trouble>
        ensures moves { Moves (shown D.held D.faults self.old)
            (answers (asks.Tags name.now n (option_copied last.entry))) (seen_of result)
            (shown D.held D.faults self.new) }
        ensures keeper { keeper_of self.new ≡ keeper_of self.old }
    {
        files_service::list_tags(alloc, &mut self.depot, name, n, last)
    }

    /// Starts an upload of a repository with this id, at this moment in seconds, or links a blob of another repository
    /// ("Pushing blobs", "Mounting a blob from another repository").
    pub fn start_upload(
        &mut self,
        alloc: Global,
        name: &Name,
        mount: &Option<(Digest, Name)>,
        id: &UploadId,
        now: u64,
    ) -> Result<Reply, Trouble>
        ensures moves { Moves (shown D.held D.faults self.old)
            (starts name.now mount.now id.now now) (seen_of result)
            (shown D.held D.faults self.new) }
        ensures keeper { keeper_of self.new ≡ keeper_of self.old }
    {
        files_service::start_upload(alloc, &mut self.depot, name, mount, id, now)
    }

    /// Keeps a manifest under a reference of a repository, or refuses it ("Pushing Manifests").
    pub fn put_manifest(
        &mut self,
        alloc: Global,
        name: &Name,
        at: &Option<Reference>,
        pushed: &Pushed,
    ) -> Result<Reply, Trouble>
        ensures moves { Moves (shown D.held D.faults self.old)
            (pushes name.now at.now pushed.now) (seen_of result)
            (shown D.held D.faults self.new) }
        ensures keeper { keeper_of self.new ≡ keeper_of self.old }
    {
        files_service::put_manifest(alloc, &mut self.depot, name, at, pushed)
    }

    /// Removes a tag of a repository, or a manifest with its tags, or refuses it ("Content Management").
    pub fn drop_reference(
        &mut self,
        alloc: Global,
        name: &Name,
        at: &Option<Reference>,
    ) -> Result<Reply, Trouble>
        ensures moves { Moves (shown D.held D.faults self.old) (drops name.now at.now)
            (seen_of result) (shown D.held D.faults self.new) }
        ensures keeper { keeper_of self.new ≡ keeper_of self.old }
    {
        files_service::drop_reference(alloc, &mut self.depot, name, at)
    }

    /// Removes the link of a repository to a blob, or refuses it ("Deleting Blobs").
    pub fn drop_blob(
        &mut self,
        alloc: Global,
        name: &Name,
        digest: &Digest,
    ) -> Result<Reply, Trouble>
        ensures moves { Moves (shown D.held D.faults self.old) (unlinks name.now digest.now)
            (seen_of result) (shown D.held D.faults self.new) }
        ensures keeper { keeper_of self.new ≡ keeper_of self.old }
    {
        files_service::drop_blob(alloc, &mut self.depot, name, digest)
    }

    /// Where an upload ends, or a refusal ("Pushing a blob in chunks").
    pub fn upload_state(
        &mut self,
        alloc: Global,
        name: &Name,
        id: &Option<UploadId>,
    ) -> Result<Reply, Trouble>
        ensures moves { Moves (shown D.held D.faults self.old) (locates name.now id.now)
            (seen_of result) (shown D.held D.faults self.new) }
        ensures keeper { keeper_of self.new ≡ keeper_of self.old }
    {
        upload_sessions::upload_state(alloc, &mut self.depot, &self.claims, name, id)
    }

    /// Takes the session of an upload for the holder of that number, from a start, if that is told: its claim and its
    /// bytes, which both are to be given back. Else a refusal.
    ///
    /// Errors: also `Trouble::Full`, where the session is free and no further claim can have a number.
    pub fn take_upload(
        &mut self,
        alloc: Global,
        who: u32,
        name: &Name,
        id: &Option<UploadId>,
        start: Option<u64>,
    ) -> Result<Taken<D::S>, Trouble>
        ensures moves { Moves (shown D.held D.faults self.old)
            (takes who name.now id.now start) (seen_of_take D.S.held result)
            (shown D.held D.faults self.new) }
        ensures fresh { IfOk result (IsFreshStage D.S.faults) }
        ensures keeper { keeper_of self.new ≡ keeper_of self.old }
    {
        upload_sessions::take_upload(
            alloc,
            &mut self.depot,
            &mut self.claims,
            who,
            name,
            id,
            start,
        )
    }

    /// Gives a session back: its claim is ended, and its bytes lie at their path again. Takes no memory, and cannot
    /// fail; the faults that the stage has had count as one of the depot.
    pub fn shelve(&mut self, held: Held, stage: D::S)
        ensures moves { Moves (shown D.held D.faults self.old)
            (shelves held (D.S.held stage) (D.S.faults stage)) ended
            (shown D.held D.faults self.new) }
        ensures keeper { keeper_of self.new ≡ keeper_of self.old }
    {
        upload_sessions::shelve(&mut self.depot, &mut self.claims, held, stage);
    }

    /// Gives an upload up: its bytes and the note of its start are removed. Else a refusal ("Canceling a blob upload").
    pub fn cancel_upload(
        &mut self,
        alloc: Global,
        name: &Name,
        id: &Option<UploadId>,
    ) -> Result<Reply, Trouble>
        ensures moves { Moves (shown D.held D.faults self.old) (cancels name.now id.now)
            (seen_of result) (shown D.held D.faults self.new) }
        ensures keeper { keeper_of self.new ≡ keeper_of self.old }
    {
        upload_sessions::cancel_upload(alloc, &mut self.depot, &self.claims, name, id)
    }

    /// Finishes an upload: its sealed bytes become the blob of their digest, and its repository links it. Its session is
    /// then to be closed. The claim comes back in every case.
    pub fn finish(&mut self, alloc: Global, held: Held, sealed: Sealed<D::S>) -> Finish<D::S>
        ensures moves { Moves (shown D.held D.faults self.old)
            (finishes held (D.S.held sealed.stage) sealed.digest) (came_to (ending_of result))
            (shown D.held D.faults self.new) }
        ensures back { IsBack held sealed result }
        ensures keeper { keeper_of self.new ≡ keeper_of self.old }
    {
        files_service::finish(alloc, &mut self.depot, &self.claims, held, sealed)
    }

    /// Ends the claim of a session, and leaves its files as they are. Takes no memory, and cannot fail.
    pub fn release(&mut self, held: Held)
        ensures moves { Moves (shown D.held D.faults self.old) (releases held) ended
            (shown D.held D.faults self.new) }
        ensures keeper { keeper_of self.new ≡ keeper_of self.old }
    {
        upload_sessions::release(&mut self.claims, held);
    }

    /// Ends a session whose bytes have become a blob: the note of its start is removed. Its claim is ended in every case.
    pub fn close_session(&mut self, alloc: Global, held: Held) -> Result<(), Trouble>
        ensures moves { Moves (shown D.held D.faults self.old) (closes held)
            (seen_of_end result) (shown D.held D.faults self.new) }
        ensures keeper { keeper_of self.new ≡ keeper_of self.old }
    {
        upload_sessions::close_session(alloc, &mut self.depot, &mut self.claims, held)
    }
}
