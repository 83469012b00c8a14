//! Lists that contracts see as the list of their items.
ghost use Rattle.std.specs.Prelude.{◌≡◌, ◌↔◌, [], IfOk, IsTrue, length};

use crate::{Digest, Named, NoMemory, Tag};
use std::alloc::Global;
use std::marker::Model;

/// Any items in their order, which contracts see as the list of them.
#[derive(Debug, Drop)]
pub struct ListOf<T> {
    items: Vec<T>,
}

/// Any digests.
pub type DigestList = ListOf<Digest>;

/// Any digests that a manifest names.
pub type NamedList = ListOf<Named>;

/// Any tags, in any order and also more than once. A list of a repository's tags (OCI Distribution Specification 1.1,
/// "Listing Tags") is in byte order, which its maker says.
pub type Tags = ListOf<Tag>;

impl<T> Model for ListOf<T> {
    ghost use Rattle.std.specs.Prelude.{List};

    ghost Value = { List T };

    ghost view = { λ l. l.items.items };
}

impl<T> ListOf<T> {
    /// The items that a `Vec` holds. It takes no memory.
    pub fn from_vec(items: Vec<T>) -> ListOf<T>
        ensures { result ≡ items.items }
    {
        ListOf { items }
    }

    /// The `Vec` that holds the items. It takes no memory.
    pub fn into_vec(self) -> Vec<T>
        ensures { result.items ≡ self }
    {
        let ListOf { items } = self;
        items
    }

    /// The items, in their order.
    pub fn as_slice(&self) -> &[T]
        ensures { result.now ≡ self.now }
    {
        &self.items
    }

    /// How many items there are.
    pub fn len(&self) -> usize
        ensures { result ≡ length self.now }
    {
        self.items.len()
    }

    /// Whether there is no item.
    pub fn is_empty(&self) -> bool
        ensures { IsTrue result ↔ (self.now ≡ []) }
    {
        self.items.is_empty()
    }
}

impl<T: Copy> ListOf<T> {
    /// An equal list.
    pub fn copy(&self, alloc: Global) -> Result<ListOf<T>, NoMemory>
        ensures { IfOk result (λ l. l ≡ self.now) }
    {
        Ok(ListOf {
            items: Vec::from_slice(alloc, &self.items)?,
        })
    }
}

impl<T: PartialEq> PartialEq for ListOf<T> {
    ghost use Rattle.std.specs.Cmp.Lexicographic.{pointwise, lists_per};

    ghost eq = { pointwise T.eq };

    ghost laws = { lists_per T.laws };

    fn eq(&self, other: &ListOf<T>) -> bool {
        self.as_slice() == other.as_slice()
    }
}

impl<T: Eq> Eq for ListOf<T> {
    ghost use Rattle.std.specs.Cmp.Lexicographic.{lists_equiv};

    ghost laws = { lists_equiv T.Eq.laws };
}
