//! Bytes that contracts see as a list.
ghost use Rattle.std.specs.Prelude.{◌≡◌, ◌↔◌, [], IfOk, IsTrue, length};

use crate::NoMemory;
use crate::by_bytes::ByBytes;
use std::alloc::Global;
use std::marker::Model;

/// Any bytes, which contracts see as the list of them.
#[derive(Debug, Drop, PartialEq, Eq, PartialOrd, Ord)]
pub struct Bytes {
    bytes: ByBytes<Vec<u8>>,
}

impl Model for Bytes {
    ghost use Rattle.std.specs.Prelude.{List, ℕ};

    ghost Value = { List ℕ };

    ghost view = { λ b. b.bytes };

    ghost inverse = { λ bytes. record { bytes = bytes } };
}

impl Bytes {
    /// A copy of some bytes.
    pub fn from_slice(alloc: Global, bytes: &[u8]) -> Result<Bytes, NoMemory>
        ensures { IfOk result (λ b. b ≡ bytes.now) }
    {
        Ok(Bytes::from_vec(Vec::from_slice(alloc, bytes)?))
    }

    /// The bytes that a `Vec` holds. It takes no memory.
    pub fn from_vec(bytes: Vec<u8>) -> Bytes
        ensures { result ≡ bytes.items }
    {
        Bytes {
            bytes: ByBytes::new(bytes),
        }
    }

    /// The `Vec` that holds the bytes. It takes no memory.
    pub fn into_vec(self) -> Vec<u8>
        ensures { result.items ≡ self }
    {
        let Bytes { bytes } = self;
        bytes.into_inner()
    }

    /// Equal bytes.
    pub fn copy(&self, alloc: Global) -> Result<Bytes, NoMemory>
        ensures { IfOk result (λ b. b ≡ self.now) }
    {
        Bytes::from_slice(alloc, self.as_slice())
    }

    pub fn as_slice(&self) -> &[u8]
        ensures { result.now ≡ self.now }
    {
        self.bytes.get_ref()
    }

    pub fn len(&self) -> usize
        ensures { result ≡ length self.now }
    {
        self.bytes.get_ref().len()
    }

    pub fn is_empty(&self) -> bool
        ensures { IsTrue result ↔ (self.now ≡ []) }
    {
        self.bytes.get_ref().is_empty()
    }
}
