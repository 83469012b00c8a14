//! Ids of uploads.
ghost use Rattle.std.specs.Prelude.{◌≡◌, ℕ, List, Ok, IfOk};
ghost use Rattle.std.specs.Ordering.{nat_cmp};
ghost use Rattle.std.specs.Cmp.Lexicographic.{slice_cmp};
ghost use Rattle.reg_names.specs.Reading.{ReadsBack};
ghost use Rattle.reg_names.specs.UploadIds.{IsUploadId, upload_id_text, upload_id_named, version_4};

use crate::{NoMemory, Text};
use std::alloc::Global;
use std::marker::Model;
use std::str;
use uuid::fmt::Hyphenated;
use uuid::{Builder, Uuid};

/// The id of an upload: a UUID (RFC 9562), whose text is the hyphenated one in lower case, 36 bytes.
/// Contracts see its sixteen bytes, by which ids are ordered.
#[derive(Clone, Copy, Debug, PartialEq, Eq, PartialOrd, Ord)]
pub struct UploadId {
    raw: [u8; 16],
}

impl Model for UploadId {
    ghost use Rattle.std.specs.Prelude.{List, ℕ};
    ghost use Rattle.reg_names.specs.UploadIds.{IsUploadId};

    ghost Value = { List ℕ };

    ghost view = { λ u. u.raw };

    ghost invariant = { λ u. IsUploadId u.raw };

    ghost inverse = { λ id. record { raw = id } };
}

impl UploadId {
    /// The version 4 id of these bytes (RFC 9562, section 5.4). It takes no memory.
    pub fn of_bytes(bytes: [u8; 16]) -> UploadId
        ensures { result ≡ version_4 bytes }
    {
        UploadId::of_uuid(Builder::from_random_bytes(bytes).into_uuid())
    }

    /// The id whose text this is, and `None` exactly where it is no id's: 8-4-4-4-12 lower-case hexadecimal digits (RFC
    /// 9562, section 4), of any version. It takes no memory, and never answers want of it.
    pub fn read(text: &str) -> Result<Option<UploadId>, NoMemory>
        ensures exact { IfOk result (ReadsBack IsUploadId upload_id_text text.now) }
        ensures value { result ≡ Ok (upload_id_named text.now) }
    {
        let Ok(id) = text.parse::<Hyphenated>() else {
            return Ok(None);
        };
        let id = UploadId::of_uuid(id.into_uuid());
        let mut buffer = [0; Hyphenated::LENGTH];
        Ok((text == id.write(&mut buffer)).then_some(id))
    }

    /// The same of bytes that may be no text.
    pub fn read_bytes(text: &[u8]) -> Result<Option<UploadId>, NoMemory>
        ensures exact { IfOk result (ReadsBack IsUploadId upload_id_text text.now) }
        ensures value { result ≡ Ok (upload_id_named text.now) }
    {
        match str::from_utf8(text) {
            Ok(text) => UploadId::read(text),
            Err(_) => Ok(None),
        }
    }

    /// The id as a text, in 36 bytes.
    pub fn text(&self, alloc: Global) -> Result<Text, NoMemory>
        ensures { IfOk result (λ t. t ≡ upload_id_text self.now) }
    {
        let mut buffer = [0; Hyphenated::LENGTH];
        Text::from_str(alloc, self.write(&mut buffer))
    }

    /// The sixteen bytes of the id.
    pub fn raw(&self) -> &[u8; 16]
        ensures bytes { result.now ≡ self.now }
        ensures id { IsUploadId self.now }
    {
        &self.raw
    }

    fn of_uuid(id: Uuid) -> UploadId
        ensures { result ≡ id }
    {
        UploadId {
            raw: id.into_bytes(),
        }
    }

    // The text of the id, written into a buffer.
    fn write<'b>(&self, buffer: &'b mut [u8; Hyphenated::LENGTH]) -> &'b str
        ensures { result.now ≡ upload_id_text self.now }
    {
        Uuid::from_bytes(self.raw).hyphenated().encode_lower(buffer)
    }
}

/// The text of each id reads back to that id.
pub fn upload_ids_read_back()
    ensures { (id : List ℕ) → IsUploadId id → upload_id_named (upload_id_text id) ≡ Some id }
{}

/// The order of ids is that of their texts.
pub fn upload_ids_are_ordered_as_texts()
    ensures { (id other : List ℕ) → IsUploadId id → IsUploadId other → slice_cmp nat_cmp id other ≡ slice_cmp nat_cmp (upload_id_text id) (upload_id_text other) }
{}
