//! Attestations are ordered by the bytes of their kinds, and those of one kind by what they hold.
ghost use Rattle.std.specs.Prelude.{◌≡◌, Some, refl, bytes_eq};
ghost use Rattle.std.specs.Ordering.{nat_cmp};
ghost use Rattle.std.specs.Cmp.{on_equiv, on_total, on_po, on_per, partial_equiv_from_equiv};
ghost use Rattle.std.specs.Cmp.Lexicographic.{slice_cmp, nat_list_eq_equiv, nat_list_cmp_total, texts_ties, texts_po};
ghost use Rattle.ots_attest.specs.Attestation.{key, kind, held, attestation_cmp};

use crate::attestation::Attestation;
use std::cmp::Ordering;

impl PartialEq for Attestation {
    ghost eq = { λ a b. bytes_eq (key a) (key b) };

    ghost laws = { on_per key (partial_equiv_from_equiv nat_list_eq_equiv) };

    fn eq(&self, other: &Attestation) -> bool {
        self.cmp(other).is_eq()
    }
}

impl Eq for Attestation {
    ghost laws = { on_equiv key nat_list_eq_equiv };
}

impl PartialOrd for Attestation {
    ghost partial_cmp = { λ a b. Some (attestation_cmp a b) };

    ghost laws = { on_po key texts_po };

    fn partial_cmp(&self, other: &Attestation) -> Option<Ordering> {
        Some(self.cmp(other))
    }
}

impl Ord for Attestation {
    ghost cmp = { attestation_cmp };

    ghost total = { on_total key nat_list_cmp_total };

    ghost matches_partial_cmp = { λ a b. refl };

    ghost matches_eq = { λ a b. texts_ties (key a) (key b) };

    fn cmp(&self, other: &Attestation) -> Ordering {
        match self.kind().cmp(&other.kind()) {
            Ordering::Equal => compare_held(self, other),
            different => different,
        }
    }
}

/// How what two attestations of one kind hold compares: URIs and payloads as bytes, heights as
/// numbers.
fn compare_held(first: &Attestation, second: &Attestation) -> Ordering
    requires { kind first.now ≡ kind second.now }
    ensures { result ≡ slice_cmp nat_cmp (held first.now) (held second.now) }
{
    match (first, second) {
        (Attestation::Pending(one), Attestation::Pending(two)) => one.text().cmp(two.text()),
        (Attestation::Bitcoin(one), Attestation::Bitcoin(two))
        | (Attestation::Litecoin(one), Attestation::Litecoin(two)) => one.cmp(two),
        (Attestation::Unknown(one), Attestation::Unknown(two)) => {
            one.payload().bytes().cmp(two.payload().bytes())
        }
        _ => unreachable!(),
    }
}
