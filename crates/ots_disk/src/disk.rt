//! The trait of a disk: reads, writes and syncs, each of which may fail.
ghost use Rattle.std.specs.Prelude.{◌≡◌, ◌≤◌, ◌-◌, min, ℕ, List, length, take, drop, Some, IfOk, OnOk, OnErr};
ghost use Rattle.std.specs.declared.option.Option.{Option};
ghost use Rattle.std.specs.Option.{option_map};
ghost use Rattle.std.specs.Io.{ReadsAtMost};
ghost use Rattle.ots_base.specs.Cause.{HasCause};
ghost use Rattle.ots_base.specs.Told.{IfTold};
ghost use Rattle.ots_disk.specs.Disk.{Torn, Tears, Follows, Elapses, put};

use ots_outside::Failed;

/// One file, what a read of it gives, and what a crash may leave of it.
///
/// Between two syncs each written range and the part past the old end may hold any bytes after a
/// crash, and bytes outside stay; the file then ends no later than the greatest of the old end and
/// the ends of these ranges. A crash may come in the middle of a call. After a sync that answered
/// `Ok` a crash leaves what a read gives. After a failed write its range may hold any bytes, and
/// after a failed sync nothing more is durable than before it.
///
/// A call answers [`Failed`] only where the count of faults rose in it. A disk that tells its bytes
/// tells them after each call; of one that does not, the clauses on bytes and images say nothing.
pub trait Disk {
    /// The bytes that a read gives now, where they are told. They are one of the images.
    ghost bytes: { Self → Option (List ℕ) };

    /// The images that a crash now may leave.
    ghost images: { Self → List ℕ → Type 0 };

    /// The moment, as a number that calls move on and that never falls.
    ghost clock: { Self → ℕ };

    /// The images that a crash at some moment from that one on may have left, inside a call or
    /// between two. So a contract can speak of every moment inside a run of calls.
    ghost images_since: { Self → ℕ → List ℕ → Type 0 };

    /// How often a call has failed. At 2^64 - 1 the count stays.
    ghost faults: { Self → ℕ };

    /// The count of faults.
    fn faults(&self) -> u64
        ensures { result ≡ faults self.now };

    /// The number of bytes.
    fn len(&mut self) -> Result<u64, Failed>
        ensures length { IfTold (bytes self.old) (λ b. IfOk result (λ n. n ≡ length b)) }
        ensures same { bytes self.new ≡ bytes self.old }
        ensures no_more { (c : List ℕ) → images self.new c → images self.old c }
        ensures time { Elapses (clock self.old) (clock self.new) (images_since self.old) (images_since self.new)
            (images self.new) }
        ensures cause { HasCause (faults self.old) (faults self.new) result };

    /// `Ok(n)` puts the n bytes from `place` on at the start of `buf`: all that it holds, and fewer
    /// only at the end of the file.
    fn read_at(&mut self, place: u64, buf: &mut [u8]) -> Result<usize, Failed>
        ensures bound { ReadsAtMost result buf.new }
        ensures read { IfTold (bytes self.old) (λ b. IfOk result (λ n. take n buf.new ≡ take n (drop place b))) }
        ensures count { IfTold (bytes self.old) (λ b. IfOk result (λ n. n ≡ min (length buf.new) (length b - place))) }
        ensures same { bytes self.new ≡ bytes self.old }
        ensures no_more { (c : List ℕ) → images self.new c → images self.old c }
        ensures time { Elapses (clock self.old) (clock self.new) (images_since self.old) (images_since self.new)
            (images self.new) }
        ensures cause { HasCause (faults self.old) (faults self.new) result };

    /// Writes over what is there, and past the end. Until a sync that answers `Ok` a crash may
    /// leave any bytes in the range. After `Failed` a read may give any bytes there too.
    fn write_at(&mut self, place: u64, piece: &[u8]) -> Result<(), Failed>
        requires { IfTold (bytes self.old) (λ b. place ≤ length b) }
        ensures written { OnOk result (bytes self.new ≡ option_map (put place piece.now) (bytes self.old)) }
        ensures failed { OnErr result (Tears (Torn place (length piece.now)) (bytes self.old) (bytes self.new)) }
        ensures torn { Follows (Torn place (length piece.now)) (images self.old) (images self.new) }
        ensures time { Elapses (clock self.old) (clock self.new) (images_since self.old) (images_since self.new)
            (images self.new) }
        ensures cause { HasCause (faults self.old) (faults self.new) result };

    /// After `Ok` a crash leaves what a read gives. After `Failed` nothing more is durable than
    /// before.
    fn sync(&mut self) -> Result<(), Failed>
        ensures durable { OnOk result ((c : List ℕ) → images self.new c → bytes self.old ≡ Some c) }
        ensures failed { OnErr result ((c : List ℕ) → images self.old c → images self.new c) }
        ensures same { bytes self.new ≡ bytes self.old }
        ensures no_more { (c : List ℕ) → images self.new c → images self.old c }
        ensures time { Elapses (clock self.old) (clock self.new) (images_since self.old) (images_since self.new)
            (images self.new) }
        ensures cause { HasCause (faults self.old) (faults self.new) result };

    /// What is read is one of the images.
    ghost read_is_image: { (d : Self) (b : List ℕ) → bytes d ≡ Some b → images d b };

    /// This moment is one of those since an earlier one.
    ghost counts_now: { (d : Self) (t : ℕ) (c : List ℕ) → t ≤ clock d → images d c → images_since d t c };

    /// Since this moment there is no other.
    ghost only_now: { (d : Self) (c : List ℕ) → images_since d (clock d) c → images d c };
}
