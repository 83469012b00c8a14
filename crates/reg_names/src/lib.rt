//! The texts of a registry: names, tags, digests, references, upload ids and manifest kinds, and why a call was refused.
//! Each text is read exactly where its grammar has it, and written back byte for byte; contracts see it as its bytes.
//! Every crate of the registry stands on this one, and on the words for the cause of a fault in `specs/Cause.antt`.
//! The grammars are those of the OCI Distribution Specification 1.1, "Pulling manifests", of the OCI Image
//! Specification 1.1, "Digests" and "Media Types", and of RFC 9562, section 4.
#![tactic(auto)]

mod by_bytes;
mod bytes;
mod digest;
mod kind;
mod limits;
mod list;
mod name;
mod named;
mod reference;
mod refused;
mod tag;
mod text;
mod upload_id;

pub use bytes::Bytes;
pub use digest::{
    Digest, digest_texts_have_one_length, digests_are_ordered_as_texts, digests_read_back,
};
pub use kind::{Kind, media_types_are_apart};
pub use limits::{DIGEST_TEXT_LENGTH, NAME_LIMIT, SHA256_LENGTH, TAG_LIMIT};
pub use list::{DigestList, ListOf, NamedList, Tags};
pub use name::{Name, names_are_the_grammar};
pub use named::Named;
pub use reference::{Reference, references_read_back};
pub use refused::{NoMemory, Refused};
pub use tag::Tag;
pub use text::Text;
pub use upload_id::{UploadId, upload_ids_are_ordered_as_texts, upload_ids_read_back};
