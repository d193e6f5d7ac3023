//! The lines of the commands.
ghost use Rattle.std.specs.Prelude.{◌≡◌, ◌++◌};
ghost use Rattle.ots_archive_text.specs.Lines.{asks_text, completeness, made_text, named_line, proof_line};
ghost use Rattle.ots_archive_text.specs.Lines.{replies_text, same_text, skipped_text, wrote_text};
ghost use Rattle.ots_printer.specs.Printing.{Puts};

use crate::names::put_shown;
use ots_outputs::put_number;
use ots_outside::Sink;
use ots_printer::Printer;

/// What a sheet of replies has of one calendar.
#[derive(Clone, Copy)]
pub struct ReplyCounts {
    /// How many requests have a reply that is a timestamp.
    pub ok: u64,
    /// How many have another status, or no reply.
    pub no: u64,
    /// How many have a body that is no timestamp.
    pub bad: u64,
}

/// Puts the line that tells that a file was written, by its name.
pub fn put_wrote<K: Sink>(name: &[u8], out: &mut Printer<'_, K>)
    ensures { Puts K.taken K.faults K.same (wrote_text name.now) out.old out.new }
{
    put_named("wrote ", name, out);
}

/// Puts the line that tells that a proof was made, and whether it is complete: some path of it ends in Bitcoin.
pub fn put_made<K: Sink>(name: &[u8], complete: bool, out: &mut Printer<'_, K>)
    ensures { Puts K.taken K.faults K.same (made_text name.now complete) out.old out.new }
{
    put_proof("wrote ", name, complete, out);
}

/// Puts the line that tells that a proof is the same as before, and whether it is complete.
pub fn put_same<K: Sink>(name: &[u8], complete: bool, out: &mut Printer<'_, K>)
    ensures { Puts K.taken K.faults K.same (same_text name.now complete) out.old out.new }
{
    put_proof("same ", name, complete, out);
}

/// Puts the line of a calendar that is asked: how many requests it has.
pub fn put_asks<K: Sink>(address: &str, count: u64, out: &mut Printer<'_, K>)
    ensures { Puts K.taken K.faults K.same (asks_text address.now count) out.old out.new }
{
    out.word(address);
    out.word(" asks ");
    out.number(count);
    out.word("\n");
}

/// Puts the line that tells how many requests are of no calendar that was named.
pub fn put_skipped<K: Sink>(count: u64, out: &mut Printer<'_, K>)
    ensures { Puts K.taken K.faults K.same (skipped_text count) out.old out.new }
{
    put_number("skipped ", count, out);
}

/// Puts the line of a calendar, by the bytes of its URL: what came of its requests.
pub fn put_replies<K: Sink>(address: &[u8], counts: ReplyCounts, out: &mut Printer<'_, K>)
    ensures { Puts K.taken K.faults K.same (replies_text address.now counts) out.old out.new }
{
    out.bytes(address);
    out.word(" ok ");
    out.number(counts.ok);
    out.word(" no ");
    out.number(counts.no);
    out.word(" bad ");
    out.number(counts.bad);
    out.word("\n");
}

/// Puts a line of words and a name.
pub(crate) fn put_named<K: Sink>(words: &str, name: &[u8], out: &mut Printer<'_, K>)
    ensures { Puts K.taken K.faults K.same (named_line words.now name.now) out.old out.new }
{
    out.word(words);
    put_shown(name, out);
    out.word("\n");
}

/// Puts a line of words, the name of a proof, and whether it is complete.
fn put_proof<K: Sink>(words: &str, name: &[u8], complete: bool, out: &mut Printer<'_, K>)
    ensures { Puts K.taken K.faults K.same (proof_line words.now name.now complete) out.old out.new }
{
    out.word(words);
    put_shown(name, out);
    out.word(completeness(complete));
    out.word("\n");
}

/// The words after the name of a proof.
fn completeness(complete: bool) -> &'static str
    ensures { result.now ≡ completeness complete }
{
    if complete { " complete" } else { " pending" }
}
