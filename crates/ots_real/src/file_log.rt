//! The record of the calls of a file that this process makes.
ghost use Rattle.std.specs.Prelude.{◌≡◌, [], ◌∷◌, true, false, IsTrue};
ghost use Rattle.ots_real.specs.FileCalls.{is_durable, calls_from};
ghost use Rattle.ots_real.specs.FileCalls.FileCall.{created, folder_synced, wrote, synced};

use crate::call_record::CallRecord;

/// The calls that were made of a file, with their answers, which only clauses read, and whether one
/// of them failed.
#[derive(Drop)]
pub struct FileLog {
    failed: bool,
    calls: CallRecord,
    ghost durable: { failed ≡ false → is_durable (calls_from calls.notes) ≡ true },
}

impl FileLog {
    ghost use Rattle.ots_real.specs.FileLog.{logged, has_failed};

    /// The record of a file that was made under a name whose folder was synced then.
    pub fn new(name: &str, folder: &str) -> FileLog
        ensures { logged result ≡ folder_synced folder.now ∷ created name.now ∷ [] }
    {
        let mut calls = CallRecord::new();
        calls.note(&[0, 0], name.as_bytes());
        calls.note(&[1, 0], folder.as_bytes());
        FileLog {
            failed: false,
            calls,
        }
    }

    /// Whether a call failed.
    pub fn has_failed(&self) -> bool
        ensures { result ≡ has_failed self.now }
    {
        self.failed
    }

    /// Notes a write that took so many bytes, and the sync after it.
    pub fn written(&mut self, count: u64)
        requires { has_failed self.old ≡ false }
        ensures calls { logged self.new ≡ synced true ∷ wrote true count ∷ logged self.old }
        ensures durable { IsTrue (is_durable (logged self.new)) }
    {
        self.calls.note(&[3, count], &[]);
        self.calls.note(&[5, 0], &[]);
    }

    /// Notes a write that failed.
    pub fn not_written(&mut self)
        ensures { logged self.new ≡ wrote false 0 ∷ logged self.old }
    {
        self.failed = true;
        self.calls.note(&[2, 0], &[]);
    }

    /// Notes a write that took so many bytes, and a sync after it that failed.
    pub fn not_synced(&mut self, count: u64)
        ensures { logged self.new ≡ synced false ∷ wrote true count ∷ logged self.old }
    {
        self.failed = true;
        self.calls.note(&[3, count], &[]);
        self.calls.note(&[4, 0], &[]);
    }
}
