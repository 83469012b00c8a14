//! What entries change, each by its kind. Memory is made sure of before anything is changed.
ghost use Rattle.std.specs.Prelude.{◌≡◌, List, OnOk, OnErr};
ghost use Rattle.reg_journal.specs.Changes.{without_tags};
ghost use Rattle.reg_journal.specs.declared.entry.What.TheVariants.{Put, SetTag, DropTag, DropManifest, Mark, Link, Unlink, BroughtBlob, Doom, Erase};
ghost use Rattle.reg_plain.specs.InnerChanges.{IsMoved, left_by, staying};

use crate::state::{Known, Standing, State};
use crate::touches::{learn, note, note_all, touch, touch_all, touch_digests, touch_target};
use reg_entries::Document;
use reg_journal::{Condemned, KeptLink, What};
use reg_names::{Digest, Name, NoMemory, Tag};
use std::alloc::Global;

impl State {
    /// Changes what an entry of this number and moment changes. Where memory is wanting, the same is held as before.
    pub(crate) fn change(
        &mut self,
        alloc: Global,
        number: u64,
        now: u64,
        what: &What,
    ) -> Result<(), NoMemory>
        ensures changed { OnOk result (IsMoved (left_by number now what.now) self.old self.new) }
        ensures same { OnErr result (IsMoved staying self.old self.new) }
    {
        match what {
            What::Put { name, digest, doc } | What::Brought { name, digest, doc } => {
                self.put_manifest(alloc, name, digest, doc, now)
            }
            What::SetTag { name, tag, digest } | What::BroughtTag { name, tag, digest } => {
                self.point_tag(alloc, name, tag, digest, now)
            }
            What::DropTag { name, tag } => self.drop_tag(alloc, name, tag, now),
            What::DropManifest { name, digest } | What::Collect { name, digest } => {
                self.drop_manifest(alloc, name, digest, now)
            }
            What::RemovedManifest { name, digest } => {
                self.drop_manifest(alloc, name, digest, now)?;
                self.drop_tags_to(name, digest);
                Ok(())
            }
            What::Mark { digest } => self.mark(*digest, now),
            What::Link { name, digest, size } | What::BroughtLink { name, digest, size } => {
                self.put_link(alloc, name, *digest, *size, now)
            }
            What::Unlink { name, digest }
            | What::RemovedLink { name, digest }
            | What::DropLink { name, digest } => self.drop_link(alloc, name, *digest, now),
            What::Opened => Ok(()),
            What::BroughtBlob { digest, size } => self.bring_blob(*digest, *size, now),
            What::Doom { digest } => self.condemn(*digest, number, now),
            What::Erase { digest } => self.erase(*digest),
        }
    }

    fn put_manifest(
        &mut self,
        alloc: Global,
        name: &Name,
        digest: &Digest,
        doc: &Document,
        now: u64,
    ) -> Result<(), NoMemory>
        ensures changed { OnOk result
            (IsMoved (left_by 0 now (Put name.now digest.now doc.now)) self.old self.new) }
        ensures same { OnErr result (IsMoved staying self.old self.new) }
    {
        let spot = (name.copy(alloc)?, *digest);
        let doc = doc.copy(alloc)?;
        self.manifests.insert(spot, Standing { doc, touched: now })?;
        Ok(())
    }

    fn point_tag(
        &mut self,
        alloc: Global,
        name: &Name,
        tag: &Tag,
        digest: &Digest,
        now: u64,
    ) -> Result<(), NoMemory>
        ensures changed { OnOk result
            (IsMoved (left_by 0 now (SetTag name.now tag.now digest.now)) self.old self.new) }
        ensures same { OnErr result (IsMoved staying self.old self.new) }
    {
        let spot = (name.copy(alloc)?, *digest);
        let of = name.copy(alloc)?;
        let at = (name.copy(alloc)?, tag.copy(alloc)?);
        let old = self.tags.insert(at, *digest)?;
        touch(&mut self.manifests, &spot, now);
        touch_target(&mut self.manifests, of, old, now);
        Ok(())
    }

    fn drop_tag(&mut self, alloc: Global, name: &Name, tag: &Tag, now: u64) -> Result<(), NoMemory>
        ensures changed { OnOk result
            (IsMoved (left_by 0 now (DropTag name.now tag.now)) self.old self.new) }
        ensures same { OnErr result (IsMoved staying self.old self.new) }
    {
        let of = name.copy(alloc)?;
        let spot = (name.copy(alloc)?, tag.copy(alloc)?);
        let old = self.tags.remove(&spot);
        touch_target(&mut self.manifests, of, old, now);
        Ok(())
    }

    fn drop_manifest(
        &mut self,
        alloc: Global,
        name: &Name,
        digest: &Digest,
        now: u64,
    ) -> Result<(), NoMemory>
        ensures changed { OnOk result
            (IsMoved (left_by 0 now (DropManifest name.now digest.now)) self.old self.new) }
        ensures same { OnErr result (IsMoved staying self.old self.new) }
    {
        let spot = (name.copy(alloc)?, *digest);
        let Some(standing) = self.manifests.get(&spot) else {
            return Ok(());
        };
        note_all(&mut self.digests, standing.doc.named.as_slice())?;
        let Some(gone) = self.manifests.remove(&spot) else {
            unreachable!()
        };
        touch_all(&mut self.manifests, spot, gone.doc.children.as_slice(), now);
        touch_digests(&mut self.digests, gone.doc.named.as_slice(), now);
        Ok(())
    }

    // Drops the tags of a repository that point to a digest.
    fn drop_tags_to(&mut self, name: &Name, digest: &Digest)
        ensures { IsMoved (without_tags name.now digest.now) self.old self.new }
    {
        self.tags
            .retain(|spot, target| spot.0 != *name || *target != *digest);
    }

    fn mark(&mut self, digest: Digest, now: u64) -> Result<(), NoMemory>
        ensures changed { OnOk result (IsMoved (left_by 0 now (Mark digest)) self.old self.new) }
        ensures same { OnErr result (IsMoved staying self.old self.new) }
    {
        let known = self.known(&digest);
        let (touched, size) = (Some(now), known.size.or(Some(None)));
        learn(
            &mut self.digests,
            digest,
            Known {
                touched,
                size,
                ..known
            },
        )
    }

    fn put_link(
        &mut self,
        alloc: Global,
        name: &Name,
        digest: Digest,
        size: u64,
        now: u64,
    ) -> Result<(), NoMemory>
        ensures changed { OnOk result
            (IsMoved (left_by 0 now (Link name.now digest size)) self.old self.new) }
        ensures same { OnErr result (IsMoved staying self.old self.new) }
    {
        let spot = (name.copy(alloc)?, digest);
        note(&mut self.digests, digest)?;
        self.links.insert(spot, KeptLink { size, moment: now })?;
        let known = self.known(&digest).brought(size, now);
        let Ok(()) = learn(&mut self.digests, digest, known) else {
            unreachable!()
        };
        Ok(())
    }

    fn drop_link(
        &mut self,
        alloc: Global,
        name: &Name,
        digest: Digest,
        now: u64,
    ) -> Result<(), NoMemory>
        ensures changed { OnOk result
            (IsMoved (left_by 0 now (Unlink name.now digest)) self.old self.new) }
        ensures same { OnErr result (IsMoved staying self.old self.new) }
    {
        let spot = (name.copy(alloc)?, digest);
        let known = self.known(&digest);
        let touched = Some(now);
        learn(&mut self.digests, digest, Known { touched, ..known })?;
        self.links.remove(&spot);
        Ok(())
    }

    fn bring_blob(&mut self, digest: Digest, size: u64, now: u64) -> Result<(), NoMemory>
        ensures changed { OnOk result
            (IsMoved (left_by 0 now (BroughtBlob digest size)) self.old self.new) }
        ensures same { OnErr result (IsMoved staying self.old self.new) }
    {
        let known = self.known(&digest).brought(size, now);
        learn(&mut self.digests, digest, known)
    }

    fn condemn(&mut self, digest: Digest, number: u64, now: u64) -> Result<(), NoMemory>
        ensures changed { OnOk result
            (IsMoved (left_by number now (Doom digest)) self.old self.new) }
        ensures same { OnErr result (IsMoved staying self.old self.new) }
    {
        let known = self.known(&digest);
        let condemned = Some(Condemned {
            number,
            moment: now,
        });
        learn(&mut self.digests, digest, Known { condemned, ..known })
    }

    fn erase(&mut self, digest: Digest) -> Result<(), NoMemory>
        ensures changed { OnOk result (IsMoved (left_by 0 0 (Erase digest)) self.old self.new) }
        ensures same { OnErr result (IsMoved staying self.old self.new) }
    {
        let known = self.known(&digest);
        let (size, condemned) = (None, None);
        learn(
            &mut self.digests,
            digest,
            Known {
                size,
                condemned,
                ..known
            },
        )
    }
}
