//! Operations are ordered by their tags, and those of one tag by the bytes of their arguments.
ghost use Rattle.std.specs.Prelude.{◌≡◌, Some, refl, bytes_eq};
ghost use Rattle.std.specs.Cmp.{on_equiv, on_total, on_po, on_per, partial_equiv_from_equiv};
ghost use Rattle.std.specs.Cmp.Lexicographic.{nat_list_eq_equiv, nat_list_cmp_total, texts_ties, texts_po};
ghost use Rattle.ots_ops.specs.Operation.{key, operation_cmp};

use crate::op::Op;
use std::cmp::Ordering;

impl PartialEq for Op {
    ghost eq = { λ a b. bytes_eq (key a) (key b) };

    ghost laws = { on_per key (partial_equiv_from_equiv nat_list_eq_equiv) };

    fn eq(&self, other: &Op) -> bool {
        self.tag() == other.tag() && self.argument() == other.argument()
    }
}

impl Eq for Op {
    ghost laws = { on_equiv key nat_list_eq_equiv };
}

impl PartialOrd for Op {
    ghost partial_cmp = { λ a b. Some (operation_cmp a b) };

    ghost laws = { on_po key texts_po };

    fn partial_cmp(&self, other: &Op) -> Option<Ordering> {
        Some(self.cmp(other))
    }
}

impl Ord for Op {
    ghost cmp = { operation_cmp };

    ghost total = { on_total key nat_list_cmp_total };

    ghost matches_partial_cmp = { λ a b. refl };

    ghost matches_eq = { λ a b. texts_ties (key a) (key b) };

    fn cmp(&self, other: &Op) -> Ordering {
        match self.tag().cmp(&other.tag()) {
            Ordering::Equal => self.argument().cmp(other.argument()),
            different => different,
        }
    }
}
