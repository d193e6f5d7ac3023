//! Laws of calendar addresses and their lists.
ghost use Rattle.std.specs.Prelude.{◌≡◌, ℕ, List, Bool};
ghost use Rattle.ots_address.specs.Address.{AddressParts, IsAddress};
ghost use Rattle.ots_address.specs.AddressList.{AreAddresses, IsBadAddress, IsListOf, pieces_of};
ghost use Rattle.ots_address.specs.OneAddress.{IsNotOneAddress, IsOneAddress};

/// A text is the address of one host and one port.
pub fn one_host_and_port()
    ensures { (text host other : List ℕ) (port another : ℕ) → IsAddress text host port → IsAddress text other another
        → (host ≡ other) × (port ≡ another) }
{}

/// A list has one list of addresses at most, each with its text, host and port; one bad address at
/// most, and none where all of its pieces are addresses. So `read_addresses` answers its addresses
/// and `BadAddress` each exactly where it should, want of memory aside.
pub fn one_list_answer()
    ensures given { (list : List ℕ) (first second : List AddressParts) → IsListOf list first → IsListOf list second
        → first ≡ second }
    ensures one { (list : List ℕ) (place other : ℕ) (https another : Bool) → IsBadAddress list place https
        → IsBadAddress list other another
        → (place ≡ other) × (https ≡ another) }
    ensures none { (list : List ℕ) (place : ℕ) (https : Bool) → IsBadAddress list place https
        → AreAddresses (pieces_of list) → ⊥ }
{}

/// A word is one address at most, is refused in one way at most, and never both.
pub fn one_address_answer()
    ensures given { (word : List ℕ) (first second : AddressParts) → IsOneAddress word first → IsOneAddress word second
        → first ≡ second }
    ensures refused { (word : List ℕ) (place other : ℕ) (https another : Bool) → IsNotOneAddress word place https
        → IsNotOneAddress word other another → (place ≡ other) × (https ≡ another) }
    ensures never_both { (word : List ℕ) (address : AddressParts) (place : ℕ) (https : Bool)
        → IsOneAddress word address → IsNotOneAddress word place https → ⊥ }
{}
