ghost use Rattle.std.specs.Prelude.{◌≡◌, ◌<◌, ◌≤◌, ◌^◌, true, false, ℕ, List, [], ◌∷◌, length, take, IfOk, MatchResult};
ghost use Rattle.std.specs.declared.option.Option.{Option};
ghost use Rattle.ots_base.specs.Told.{IfTold};
ghost use Rattle.ots_file.specs.Events.{FileEvent, IsHonest};
ghost use Rattle.ots_file.specs.Events.FileEvent.{opened, folder_synced, pages_dropped, measured, got, wrote, synced};

use ots_outside::Failed;

/// The calls that are made of one file of the system, with a record of each and of its answer.
/// Each method makes one call, which may fail at any time, and notes it.
pub trait FileCalls {
    /// Each call so far with its answer, the newest first.
    ghost history: { Self → List FileEvent };

    /// The folder in which the open file stands, as text.
    ghost folder: { Self → List ℕ };

    /// What the device held when the file was opened, where the file is supposed to be honest.
    ghost first: { Self → Option (List ℕ) };

    /// So its answers are those of an honest file.
    ghost honest: { (f : Self) → IfTold (first f) (λ b. IsHonest b (history f)) };

    /// Opens the file, and makes it where it isn't there. One that was open is closed before.
    fn open(&mut self) -> Result<(), Failed>
        ensures noted { MatchResult result
            (λ _. history self.new ≡ opened (folder self.new) true ∷ history self.old)
            (λ _. history self.new ≡ opened [] false ∷ history self.old) }
        ensures kept { first self.new ≡ first self.old };

    /// Makes the file's name durable by a sync of the folder in which it stands.
    fn sync_folder(&mut self) -> Result<(), Failed>
        ensures noted { MatchResult result
            (λ _. history self.new ≡ folder_synced (folder self.old) true ∷ history self.old)
            (λ _. history self.new ≡ folder_synced (folder self.old) false ∷ history self.old) }
        ensures kept { first self.new ≡ first self.old }
        ensures stays { folder self.new ≡ folder self.old };

    /// Drops the pages that the system keeps of the file, so that a read gives what the device holds.
    fn drop_pages(&mut self) -> Result<(), Failed>
        ensures noted { MatchResult result
            (λ _. history self.new ≡ pages_dropped true ∷ history self.old)
            (λ _. history self.new ≡ pages_dropped false ∷ history self.old) }
        ensures kept { first self.new ≡ first self.old }
        ensures stays { folder self.new ≡ folder self.old };

    /// The number of bytes.
    fn len(&mut self) -> Result<u64, Failed>
        ensures noted { MatchResult result
            (λ n. history self.new ≡ measured true n ∷ history self.old)
            (λ _. history self.new ≡ measured false 0 ∷ history self.old) }
        ensures kept { first self.new ≡ first self.old }
        ensures stays { folder self.new ≡ folder self.old };

    /// Puts bytes from a place on at the start of the buffer, and answers how many. No bytes come
    /// only at the end of the file.
    fn read_some(&mut self, place: u64, buf: &mut [u8]) -> Result<usize, Failed>
        requires { 0 < length buf.old }
        ensures count { IfOk result (λ n. (n ≤ length buf.old) × (place < 2 ^ 63)) }
        ensures noted { MatchResult result
            (λ n. history self.new ≡ got place (length buf.old) true (take n buf.new) ∷ history self.old)
            (λ _. history self.new ≡ got place (length buf.old) false [] ∷ history self.old) }
        ensures kept { first self.new ≡ first self.old }
        ensures stays { folder self.new ≡ folder self.old };

    /// Writes the prefix of the piece at a place, and answers how many bytes were taken.
    fn write_some(&mut self, place: u64, piece: &[u8]) -> Result<usize, Failed>
        requires { 0 < length piece.now }
        ensures count { IfOk result (λ n. (0 < n) × (n ≤ length piece.now) × (place < 2 ^ 63)) }
        ensures noted { MatchResult result
            (λ n. history self.new ≡ wrote place piece.now true n ∷ history self.old)
            (λ _. history self.new ≡ wrote place piece.now false 0 ∷ history self.old) }
        ensures kept { first self.new ≡ first self.old }
        ensures stays { folder self.new ≡ folder self.old };

    /// Makes the file's data and metadata durable.
    fn sync(&mut self) -> Result<(), Failed>
        ensures noted { MatchResult result
            (λ _. history self.new ≡ synced true ∷ history self.old)
            (λ _. history self.new ≡ synced false ∷ history self.old) }
        ensures kept { first self.new ≡ first self.old }
        ensures stays { folder self.new ≡ folder self.old };
}
