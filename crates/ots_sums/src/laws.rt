//! Laws of files of sums.
ghost use Rattle.std.specs.Prelude.{◌≡◌, ◌++◌, ℕ, List};
ghost use Rattle.ots_sums.specs.Names.{escaped, mark_of};
ghost use Rattle.ots_sums.specs.Sums.{AreSums, Entry, IsBadLine};

/// Bytes are the lines of one list of sums at most, and have one first bad line at most, and never both.
pub fn one_list_of_sums()
    ensures given { (bytes : List ℕ) (first second : List Entry) → AreSums bytes first → AreSums bytes second
        → first ≡ second }
    ensures refused { (bytes : List ℕ) (first second : ℕ) → IsBadLine bytes first → IsBadLine bytes second
        → first ≡ second }
    ensures never_both { (bytes : List ℕ) (entries : List Entry) (number : ℕ) → AreSums bytes entries
        → IsBadLine bytes number → ⊥ }
{}

/// What a name is shown as is shown of no other name, with the mark before it and without.
pub fn one_name()
    ensures escaped { (first second : List ℕ) → escaped first ≡ escaped second → first ≡ second }
    ensures shown { (first second : List ℕ) → mark_of first ++ escaped first ≡ mark_of second ++ escaped second
        → first ≡ second }
{}
