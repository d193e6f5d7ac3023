//! What the definitions say of rounds, beside what each call says.
ghost use Rattle.std.specs.Prelude.{◌≡◌, ◌≤◌, ◌<◌, ◌^◌, ℕ, List, Some, length, take, drop, slice_get};
ghost use Rattle.std.specs.Int.{w32, to_be_bytes};
ghost use Rattle.ots_ops.specs.Value.{value};
ghost use Rattle.ots_merkle.specs.CalendarTree.{root};
ghost use Rattle.ots_round.specs.Hmac.{filled, hmac_sha256};
ghost use Rattle.ots_round.specs.Round.{leaves, mac, signed, commitment, round_commitment, round_way};
ghost use Rattle.ots_round.specs.declared.ticket.Ticket.{Ticket};

/// A key and the block that it fills give the same keyed hashes.
pub fn filled_key()
    ensures { (key message : List ℕ) → length key ≤ 64 → hmac_sha256 (filled key) message ≡ hmac_sha256 key message }
{}

/// The parts of a commitment over a root of 32 bytes: the second, the root, and the keyed hash.
pub fn commitment_parts()
    ensures second { (key : List ℕ) (second : ℕ) (root : List ℕ) → length root ≡ 32
        → take 4 (commitment key second root) ≡ to_be_bytes w32 second }
    ensures root { (key : List ℕ) (second : ℕ) (root : List ℕ) → length root ≡ 32
        → take 32 (drop 4 (commitment key second root)) ≡ root }
    ensures mac { (key : List ℕ) (second : ℕ) (root : List ℕ) → length root ≡ 32
        → drop 36 (commitment key second root) ≡ mac key (signed second root) }
{}

/// The way of each ticket of a round leads from its digest to the round's commitment. A digest has
/// at most 64 bytes and a nonce 16.
pub fn ways_lead()
    ensures { (key : List ℕ) (second : ℕ) (tickets : List Ticket) (i : ℕ) (ticket : Ticket)
        → length ticket.leaf ≤ 64 → length ticket.nonce ≡ 16 → slice_get tickets i ≡ Some ticket
        → value (round_way key second tickets i ticket) ticket.leaf ≡ Some (round_commitment key second tickets) }
{}
