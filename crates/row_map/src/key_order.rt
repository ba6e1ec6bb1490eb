//! The order of the keys of rows: that of their bytes.

ghost use Rattle.std.specs.Prelude.{◌≡◌, Some, refl, bytes_eq, length};
ghost use Rattle.std.specs.Ordering.{nat_cmp};
ghost use Rattle.std.specs.Cmp.{on_equiv, on_total, on_po, on_per, partial_equiv_from_equiv};
ghost use Rattle.std.specs.Cmp.Lexicographic.{slice_cmp, nat_list_eq_equiv, nat_list_cmp_total, texts_ties, texts_po};
ghost use Rattle.row_map.specs.RowMap.{bytes_of};

use crate::row_key::RowKey;
use std::cmp::Ordering;

impl PartialEq for RowKey {
    ghost eq = { λ k l. bytes_eq (bytes_of k) (bytes_of l) };

    ghost laws = { on_per bytes_of (partial_equiv_from_equiv nat_list_eq_equiv) };

    fn eq(&self, other: &RowKey) -> bool {
        self.kind == other.kind && self.id == other.id
    }
}

impl Eq for RowKey {
    ghost laws = { on_equiv bytes_of nat_list_eq_equiv };
}

impl PartialOrd for RowKey {
    ghost partial_cmp = { λ k l. Some (slice_cmp nat_cmp (bytes_of k) (bytes_of l)) };

    ghost laws = { on_po bytes_of texts_po };

    fn partial_cmp(&self, other: &RowKey) -> Option<Ordering> {
        Some(self.cmp(other))
    }
}

impl Ord for RowKey {
    ghost cmp = { λ k l. slice_cmp nat_cmp (bytes_of k) (bytes_of l) };

    ghost total = { on_total bytes_of nat_list_cmp_total };

    ghost matches_partial_cmp = { λ k l. refl };

    ghost matches_eq = { λ k l. texts_ties (bytes_of k) (bytes_of l) };

    fn cmp(&self, other: &RowKey) -> Ordering {
        match self.kind.cmp(&other.kind) {
            Ordering::Equal => cmp_ids(&self.id, &other.id),
            order => order,
        }
    }
}

/// The order of two ids by their bytes. The first two bytes are compared first, since they mostly
/// decide.
fn cmp_ids(one: &[u8; 32], other: &[u8; 32]) -> Ordering
    requires one { length one.now ≡ 32 }
    requires other { length other.now ≡ 32 }
    ensures { result ≡ slice_cmp nat_cmp one.now other.now }
{
    match one[0].cmp(&other[0]) {
        Ordering::Equal => match one[1].cmp(&other[1]) {
            Ordering::Equal => one.cmp(other),
            order => order,
        },
        order => order,
    }
}
