//! The record of a file's calls, which only clauses read.
ghost use Rattle.std.specs.Prelude.{◌≡◌, [], ◌∷◌};
ghost use Rattle.ots_file.specs.Events.FileEvent.{opened, folder_synced, pages_dropped, measured, got, wrote, synced};

use ots_real::CallRecord;

/// The calls that were made of a file with their answers. It takes no memory.
#[derive(Drop)]
pub struct Record {
    calls: CallRecord,
}

impl Record {
    ghost use Rattle.ots_file.specs.Note.{event_of};
    ghost use Rattle.ots_file.specs.Record.{events_of};

    /// The record of a file of which no call was made yet.
    pub(crate) fn new() -> Record
        ensures { events_of result ≡ [] }
    {
        Record {
            calls: CallRecord::new(),
        }
    }

    /// Notes that the file was opened in a folder, or that it could not be.
    pub(crate) fn opened(&mut self, folder: &[u8], ok: bool)
        ensures { events_of self.new ≡ opened folder.now ok ∷ events_of self.old }
    {
        self.note(&[0, 0, 0, u64::from(ok)], folder);
    }

    /// Notes a sync of a folder.
    pub(crate) fn folder_synced(&mut self, folder: &[u8], ok: bool)
        ensures { events_of self.new ≡ folder_synced folder.now ok ∷ events_of self.old }
    {
        self.note(&[1, 0, 0, u64::from(ok)], folder);
    }

    /// Notes that the pages were dropped.
    pub(crate) fn pages_dropped(&mut self, ok: bool)
        ensures { events_of self.new ≡ pages_dropped ok ∷ events_of self.old }
    {
        self.note(&[2, 0, 0, u64::from(ok)], &[]);
    }

    /// Notes the length that was answered.
    pub(crate) fn measured(&mut self, ok: bool, length: u64)
        ensures { events_of self.new ≡ measured ok length ∷ events_of self.old }
    {
        self.note(&[3, 0, length, u64::from(ok)], &[]);
    }

    /// Notes a read of `asked` bytes, with those that came.
    pub(crate) fn got(&mut self, place: u64, asked: u64, ok: bool, bytes: &[u8])
        ensures { events_of self.new ≡ got place asked ok bytes.now ∷ events_of self.old }
    {
        self.note(&[4, place, asked, u64::from(ok)], bytes);
    }

    /// Notes a write of a piece, with how many of its bytes were taken.
    pub(crate) fn wrote(&mut self, place: u64, piece: &[u8], ok: bool, taken: u64)
        ensures { events_of self.new ≡ wrote place piece.now ok taken ∷ events_of self.old }
    {
        self.note(&[5, place, taken, u64::from(ok)], piece);
    }

    /// Notes a sync of the file.
    pub(crate) fn synced(&mut self, ok: bool)
        ensures { events_of self.new ≡ synced ok ∷ events_of self.old }
    {
        self.note(&[6, 0, 0, u64::from(ok)], &[]);
    }

    /// Notes a call: its kind, its place, its count and 1 for success, with the bytes that it bears.
    fn note(&mut self, numbers: &[u64], bytes: &[u8])
        ensures { events_of self.new ≡ event_of numbers.now bytes.now ∷ events_of self.old }
    {
        self.calls.note(numbers, bytes);
    }
}
