//! The line of a refusal.
ghost use Rattle.std.specs.Prelude.{◌≡◌};
ghost use Rattle.ots_archive_text.specs.Refusal.{refusal_text};
ghost use Rattle.ots_archive_text.specs.declared.status.ArchiveStatus.TheVariants.{BadProof, TooFew};
ghost use Rattle.ots_printer.specs.Printing.{Puts};

use crate::lines::put_named;
use crate::names::put_shown;
use crate::status::ArchiveStatus;
use ots_outputs::put_number;
use ots_outside::Sink;
use ots_printer::Printer;
use ots_reader::Fault;

/// Puts the line of a refusal over a name, or nothing where the status has none. A name of bytes is shown as
/// [`put_shown`] does, so it is not to be escaped before.
pub fn put_refusal<K: Sink>(name: &[u8], status: &ArchiveStatus, out: &mut Printer<'_, K>)
    ensures { Puts K.taken K.faults K.same (refusal_text name.now status.now) out.old out.new }
{
    match status {
        ArchiveStatus::Usage => out.word("usage: otsarchive draft, ask, take\n"),
        ArchiveStatus::BadProof(fault) => put_fault(name, *fault, out),
        ArchiveStatus::NoFile => put_named("no file ", name, out),
        ArchiveStatus::Exists => put_named("exists ", name, out),
        ArchiveStatus::ReadFault => put_named("read fault ", name, out),
        ArchiveStatus::BadName => put_named("bad name ", name, out),
        ArchiveStatus::WriteFault => put_named("write fault ", name, out),
        ArchiveStatus::TooBig => put_named("too big ", name, out),
        ArchiveStatus::TooFew { got, wanted } => put_too_few(name, *got, *wanted, out),
        ArchiveStatus::NonceFault => out.word("nonce fault\n"),
        ArchiveStatus::FileTooLong => put_named("file too long ", name, out),
        ArchiveStatus::BadAddress { place } => put_number("bad address at ", *place as u64, out),
        ArchiveStatus::BadSheet(line) => put_number("bad sheet at ", *line, out),
        ArchiveStatus::BadSums(line) => put_number("bad sums line ", *line, out),
        ArchiveStatus::TooManyRequests => out.word("too many requests\n"),
        ArchiveStatus::Twice => put_named("twice ", name, out),
        ArchiveStatus::Done | ArchiveStatus::Pending | ArchiveStatus::OutOfMemory => {}
    }
}

/// Puts the line for an input that is no proof file.
fn put_fault<K: Sink>(name: &[u8], fault: Fault, out: &mut Printer<'_, K>)
    ensures { Puts K.taken K.faults K.same (refusal_text name.now (BadProof fault)) out.old out.new }
{
    out.word("bad proof ");
    put_shown(name, out);
    out.word(" at ");
    out.number(fault.place);
    out.word(": ");
    out.word(fault.reason.words());
    out.word("\n");
}

/// Puts the line for too few calendars.
fn put_too_few<K: Sink>(name: &[u8], got: u32, wanted: u32, out: &mut Printer<'_, K>)
    ensures { Puts K.taken K.faults K.same (refusal_text name.now (TooFew got wanted)) out.old out.new }
{
    out.word("too few ");
    out.number(got as u64);
    out.word(" of ");
    out.number(wanted as u64);
    out.word(" ");
    put_shown(name, out);
    out.word("\n");
}
