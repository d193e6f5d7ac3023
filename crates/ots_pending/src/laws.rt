//! A law of canonical trees that bounds how long a completed proof is.
ghost use Rattle.std.specs.Prelude.{◌≤◌, List, length};
ghost use Rattle.ots_tree.specs.declared.token.Token.{Token};
ghost use Rattle.ots_tree.specs.Wire.{Path, spelled};
ghost use Rattle.ots_canon.specs.Canonical.{IsCanonTree};
ghost use Rattle.ots_canon.specs.Order.{Has};

/// Where each path of a list is in another list, the canonical tree of the first list is spelled in no
/// more bytes than that of the second.
pub fn fewer_paths()
    ensures { (ps qs : List Path) (ts us : List Token) → IsCanonTree ps ts → IsCanonTree qs us
        → ((p : Path) → Has ps p → Has qs p)
        → length (spelled ts) ≤ length (spelled us) }
{}
