//! Laws of chains of headers.
ghost use Rattle.std.specs.Prelude.{◌≡◌, ◌+◌, ◌≤◌, ℕ, List, Some};
ghost use Rattle.ots_headers.specs.declared.header.Header.{Header};
ghost use Rattle.ots_headers.specs.HeaderTable.{Table, header_at};
ghost use Rattle.ots_chain.specs.declared.checking.ChainCheck.{ChainCheck};
ghost use Rattle.ots_chain.specs.Chain.{IsCheckOf, IsWhole, hash_of};
ghost use Rattle.ots_chain.specs.declared.pins.Pin.{Pin};
ghost use Rattle.ots_chain.specs.Pins.{ArePins, IsBadLine};

/// A table has one check's answer.
pub fn one_check()
    ensures { (t : Table) (a b : ChainCheck) → IsCheckOf t a → IsCheckOf t b → a ≡ b }
{}

/// Where the check of a table is `Whole`, each header but the first names the hash of the one before it.
pub fn whole_is_linked()
    ensures { (t : Table) (check : ChainCheck) (height : ℕ) (before header : Header)
        → IsWhole check → IsCheckOf t check → t.first ≤ height
        → header_at t height ≡ Some before → header_at t (height + 1) ≡ Some header
        → header.previous ≡ hash_of before }
{}

/// Bytes are the lines of one list of pins at most, and have one first bad line at most, and never both.
pub fn one_list_of_pins()
    ensures given { (bytes : List ℕ) (first second : List Pin) → ArePins bytes first → ArePins bytes second
        → first ≡ second }
    ensures refused { (bytes : List ℕ) (first second : ℕ) → IsBadLine bytes first → IsBadLine bytes second
        → first ≡ second }
    ensures never_both { (bytes : List ℕ) (pins : List Pin) (number : ℕ) → ArePins bytes pins
        → IsBadLine bytes number → ⊥ }
{}
