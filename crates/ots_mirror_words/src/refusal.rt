//! The line of a refusal.
ghost use Rattle.std.specs.Prelude.{◌≡◌};
ghost use Rattle.ots_printer.specs.Printing.{Puts};
ghost use Rattle.ots_mirror_words.specs.Refusal.{full_line, refusal_text};

use crate::MirrorStatus;
use ots_outputs::{put_bad_address, put_number};
use ots_outside::Sink;
use ots_printer::Printer;

/// Puts the line of a refusal, or nothing where the status has none.
pub fn put_refusal<K: Sink>(status: &MirrorStatus, out: &mut Printer<'_, K>)
    ensures { Puts K.taken K.faults K.same (refusal_text status.now) out.old out.new }
{
    match status {
        MirrorStatus::Usage => out.word("usage: otsmirror JOURNAL ADDRESS --rounds N\n"),
        MirrorStatus::BadAddress { place, https } => put_bad_address(*place, *https, out),
        MirrorStatus::NotAJournal => out.word("not a journal\n"),
        MirrorStatus::Damaged(place) => put_number("damaged at ", *place, out),
        MirrorStatus::BadRecord(index) => put_number("bad record ", *index, out),
        MirrorStatus::Full { need, limit } => put_full(*need, *limit, out),
        MirrorStatus::DiskFault => out.word("disk fault\n"),
        MirrorStatus::OldVersion => out.word("old version\n"),
        MirrorStatus::Done
        | MirrorStatus::Behind
        | MirrorStatus::WriteFault
        | MirrorStatus::OutOfMemory => {}
    }
}

/// Puts the line for a journal that is full.
fn put_full<K: Sink>(need: u64, limit: u64, out: &mut Printer<'_, K>)
    ensures { Puts K.taken K.faults K.same (full_line need limit) out.old out.new }
{
    out.word("journal full ");
    out.number(need);
    out.word(" of ");
    out.number(limit);
    out.word("\n");
}
