//! Typed rows.
ghost use Rattle.std.specs.Prelude.{◌≡◌, ◌≤◌, ◌∷◌, length};
ghost use Rattle.reg_names.specs.Digests.{IsDigest};
ghost use Rattle.reg_journal.specs.Spelling.{number_field, kind_number, free_field};
ghost use Rattle.reg_tables.specs.InnerForms.{IsManifestRow, IsLinkRow, IsBlobRow, IsFreeRow};
ghost use Rattle.reg_tables.specs.Spelled.{manifest_spelled, link_spelled, blob_spelled};

use reg_names::{Digest, Kind};

/// A manifest of a repository.
#[derive(Clone, Copy, Debug, PartialEq, Eq)]
pub struct ManifestRow {
    pub kind: Kind,
    /// The number of its bytes.
    pub size: u64,
    /// When an entry touched it last, in seconds.
    pub touched: u64,
}

/// A link of a repository to a blob.
#[derive(Clone, Copy, Debug, PartialEq, Eq)]
pub struct LinkRow {
    /// The number of the blob's bytes.
    pub size: u64,
    /// When the link was made, in seconds.
    pub moment: u64,
}

/// How a blob stands. Moments are in seconds.
#[derive(Clone, Copy, Debug, PartialEq, Eq)]
pub enum BlobRow {
    /// It is about to come.
    Pending { touched: u64 },
    /// It lies there, with so many bytes.
    Here { size: u64, touched: u64 },
    /// It is being removed since the entry of this number.
    Doomed { entry: u64 },
}

impl ManifestRow {
    /// The row that is spelled so.
    pub(crate) fn read(row: &[u8]) -> ManifestRow
        requires { IsManifestRow row.now }
        ensures { manifest_spelled result ≡ row.now }
    {
        let (kind, rest) = row.split_at(1);
        let (size, touched) = rest.split_at(8);
        ManifestRow {
            kind: kind_of(kind[0]),
            size: number_of(size),
            touched: number_of(touched),
        }
    }
}

impl LinkRow {
    /// The row that is spelled so.
    pub(crate) fn read(row: &[u8]) -> LinkRow
        requires { IsLinkRow row.now }
        ensures { link_spelled result ≡ row.now }
    {
        let (size, moment) = row.split_at(8);
        LinkRow {
            size: number_of(size),
            moment: number_of(moment),
        }
    }
}

impl BlobRow {
    /// The row that is spelled so.
    pub(crate) fn read(row: &[u8]) -> BlobRow
        requires { IsBlobRow row.now }
        ensures { blob_spelled result ≡ row.now }
    {
        let (standing, rest) = row.split_at(1);
        match standing[0] {
            1 => BlobRow::Pending {
                touched: number_of(rest),
            },
            2 => {
                let (size, touched) = rest.split_at(8);
                BlobRow::Here {
                    size: number_of(size),
                    touched: number_of(touched),
                }
            }
            _ => BlobRow::Doomed {
                entry: number_of(rest),
            },
        }
    }
}

/// The digest that is spelled so.
pub(crate) fn digest_of(row: &[u8]) -> Digest
    requires { IsDigest row.now }
    ensures { result ≡ row.now }
{
    let (_, raw) = row.split_at(1);
    match raw.split_first_chunk() {
        Some((raw, _)) => Digest::from_sha256(*raw),
        None => unreachable!(),
    }
}

/// Whether the row of a digest that a manifest names says that it is free.
pub(crate) fn is_free(row: &[u8]) -> bool
    requires { IsFreeRow row.now }
    ensures { free_field result ≡ row.now }
{
    row[0] == 1
}

/// The number that 8 bytes spell.
pub fn number_of(bytes: &[u8]) -> u64
    requires { length bytes.now ≡ 8 }
    ensures { number_field result ≡ bytes.now }
{
    match bytes.split_first_chunk() {
        Some((number, _)) => u64::from_be_bytes(*number),
        None => unreachable!(),
    }
}

fn kind_of(number: u8) -> Kind
    requires some { 1 ≤ number }
    requires most { number ≤ 4 }
    ensures { kind_number result ≡ number }
{
    match number {
        1 => Kind::OciImage,
        2 => Kind::OciIndex,
        3 => Kind::DockerImage,
        _ => Kind::DockerList,
    }
}
