//! Holders of bytes, compared by them.
ghost use Rattle.std.specs.Prelude.{◌≡◌};

use std::cmp::Ordering;
use std::convert::AsSlice;
use std::marker::Model;

/// A holder of bytes, which contracts see as the list of them. Two are equal where their lists are, and
/// ordered as those.
#[derive(Debug, Drop)]
pub struct ByBytes<T: AsSlice<u8>> {
    holder: T,
}

impl<T: AsSlice<u8>> Model for ByBytes<T> {
    ghost use Rattle.std.specs.Prelude.{List, ℕ};

    ghost Value = { List ℕ };

    ghost view = { λ b. T.items b.holder };
}

impl<T: AsSlice<u8>> ByBytes<T> {
    pub fn new(holder: T) -> ByBytes<T>
        ensures { result ≡ T.items holder }
    {
        ByBytes { holder }
    }

    pub fn get_ref(&self) -> &T
        ensures { T.items result.now ≡ self.now }
    {
        &self.holder
    }

    pub fn into_inner(self) -> T
        ensures { T.items result ≡ self }
    {
        let ByBytes { holder } = self;
        holder
    }
}

impl<T: AsSlice<u8>> PartialEq for ByBytes<T> {
    ghost use Rattle.std.specs.Prelude.{nat_eq};
    ghost use Rattle.std.specs.Cmp.{partial_equiv_from_equiv};
    ghost use Rattle.std.specs.Cmp.Lexicographic.{pointwise, nat_list_eq_equiv};

    ghost eq = { pointwise nat_eq };

    ghost laws = { partial_equiv_from_equiv nat_list_eq_equiv };

    fn eq(&self, other: &ByBytes<T>) -> bool {
        self.holder.as_slice() == other.holder.as_slice()
    }
}

impl<T: AsSlice<u8>> Eq for ByBytes<T> {
    ghost use Rattle.std.specs.Cmp.Lexicographic.{nat_list_eq_equiv};

    ghost laws = { nat_list_eq_equiv };
}

impl<T: AsSlice<u8>> Ord for ByBytes<T> {
    ghost use Rattle.std.proofs.Common.{rules};
    ghost use Rattle.std.specs.Ordering.{nat_cmp};
    ghost use Rattle.std.specs.Cmp.Rules.{comparing};
    ghost use Rattle.std.specs.Cmp.Lexicographic.{slice_cmp, nat_list_cmp_total};

    ghost cmp = { slice_cmp nat_cmp };

    ghost total = { nat_list_cmp_total };

    ghost matches_partial_cmp = { Prim.search (comparing, rules) };

    ghost matches_eq = { Prim.search (comparing, rules) };

    fn cmp(&self, other: &ByBytes<T>) -> Ordering {
        self.holder.as_slice().cmp(&other.holder.as_slice())
    }
}

impl<T: AsSlice<u8>> PartialOrd for ByBytes<T> {
    ghost use Rattle.std.specs.Ordering.{nat_cmp, as_partial_cmp};
    ghost use Rattle.std.specs.Cmp.Lexicographic.{slice_cmp};
    ghost use Rattle.reg_names.specs.InnerOrders.{texts_partial_order};

    ghost partial_cmp = { as_partial_cmp (slice_cmp nat_cmp) };

    ghost laws = { texts_partial_order };

    fn partial_cmp(&self, other: &ByBytes<T>) -> Option<Ordering> {
        Some(self.cmp(other))
    }
}
