//! The line of a refusal.
ghost use Rattle.std.specs.Prelude.{◌≡◌, []};
ghost use Rattle.ots_printer.specs.Printing.{Puts};
ghost use Rattle.ots_calendar_text.specs.Refusal.{reason_words, refusal_text};
ghost use Rattle.ots_calendar_text.specs.declared.status.DaemonStatus.TheVariants.{BadBlock, BadRoot, Full};

use crate::DaemonStatus;
use ots_block::BlockReason;
use ots_outputs::{put_bad_address, put_name, put_number};
use ots_outside::Sink;
use ots_printer::Printer;

/// Puts the line of a refusal over a name, or nothing where the status has none.
pub fn put_refusal<K: Sink>(name: &str, status: &DaemonStatus, out: &mut Printer<'_, K>)
    ensures { Puts K.taken K.faults K.same (refusal_text name.now status.now) out.old out.new }
{
    match status {
        DaemonStatus::NothingNew => out.word("nothing new\n"),
        DaemonStatus::Usage => {
            out.word("usage: otsd JOURNAL serve, batch, tip, anchor, list, migrate\n")
        }
        DaemonStatus::NoFile => put_name("no file ", name, out),
        DaemonStatus::ReadFault => put_name("read fault ", name, out),
        DaemonStatus::TooBig => put_name("too big ", name, out),
        DaemonStatus::NonceFault => out.word("nonce fault\n"),
        DaemonStatus::BadAddress { place, https } => put_bad_address(*place, *https, out),
        DaemonStatus::NotAJournal => out.word("not a journal\n"),
        DaemonStatus::Damaged(place) => put_number("damaged at ", *place, out),
        DaemonStatus::BadRecord(index) => put_number("bad record ", *index, out),
        DaemonStatus::Full { need, limit } => put_full(*need, *limit, out),
        DaemonStatus::DiskFault => out.word("disk fault\n"),
        DaemonStatus::NoTip => out.word("no tip in the block\n"),
        DaemonStatus::BadRoot { header, computed } => put_bad_root(header, computed, out),
        DaemonStatus::TransactionTooLong(length) => {
            put_number("transaction too long ", *length, out)
        }
        DaemonStatus::BadBlock { place, reason } => put_bad_block(*place, *reason, out),
        DaemonStatus::BadKey(length) => put_number("bad key ", *length, out),
        DaemonStatus::BadDigests(line) => put_number("bad digests line ", *line, out),
        DaemonStatus::AcceptFault => out.word("accept fault\n"),
        DaemonStatus::BadSecond(second) => put_number("bad second ", *second, out),
        DaemonStatus::NotPrefix(index) => put_number("not a prefix at ", *index, out),
        DaemonStatus::OldVersion => out.word("old version\n"),
        DaemonStatus::Done | DaemonStatus::WriteFault | DaemonStatus::OutOfMemory => {}
    }
}

/// Puts the line for a journal that is full.
fn put_full<K: Sink>(need: u64, limit: u64, out: &mut Printer<'_, K>)
    ensures { Puts K.taken K.faults K.same (refusal_text [] (Full need limit)) out.old out.new }
{
    out.word("journal full ");
    out.number(need);
    out.word(" of ");
    out.number(limit);
    out.word("\n");
}

/// Puts the line for a block whose header has another root than its transactions.
fn put_bad_root<K: Sink>(header: &[u8; 32], computed: &[u8; 32], out: &mut Printer<'_, K>)
    ensures { Puts K.taken K.faults K.same (refusal_text [] (BadRoot header.now computed.now)) out.old out.new }
{
    out.word("bad root ");
    out.hex(header);
    out.word(" ");
    out.hex(computed);
    out.word("\n");
}

/// Puts the line for a file that is no block.
fn put_bad_block<K: Sink>(place: u64, reason: BlockReason, out: &mut Printer<'_, K>)
    ensures { Puts K.taken K.faults K.same (refusal_text [] (BadBlock place reason)) out.old out.new }
{
    out.word("bad block at ");
    out.number(place);
    out.word(": ");
    out.word(reason_words(reason));
    out.word("\n");
}

/// The words of a reason.
fn reason_words(reason: BlockReason) -> &'static str
    ensures { result.now ≡ reason_words reason }
{
    match reason {
        BlockReason::Truncated => "truncated",
        BlockReason::NonMinimal => "non-minimal number",
        BlockReason::TooLarge => "number too large",
        BlockReason::BadFlag => "bad flag",
        BlockReason::NoTransaction => "no transaction",
        BlockReason::Rest => "rest",
    }
}
