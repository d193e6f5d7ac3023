//! The line of a refusal.
ghost use Rattle.std.specs.Prelude.{◌≡◌, []};
ghost use Rattle.ots_printer.specs.Printing.{Puts};
ghost use Rattle.ots_client_text.specs.Refusal.{fault_words, refusal_text};
ghost use Rattle.ots_client_text.specs.declared.status.Status.TheVariants.{BadProof, Broken, Differs, TooFew};

use crate::status::Status;
use ots_chain::ChainFault;
use ots_info::put_pair;
use ots_ops::{Digest, HashOp};
use ots_outputs::{put_bad_address, put_name, put_number};
use ots_outside::Sink;
use ots_printer::Printer;
use ots_reader::Fault;

/// Puts the line of a refusal over a name, or nothing where the status has none.
pub fn put_refusal<K: Sink>(name: &str, status: &Status, out: &mut Printer<'_, K>)
    ensures { Puts K.taken K.faults K.same (refusal_text name.now status.now) out.old out.new }
{
    match status {
        Status::Usage => out.word(
            "usage: ots info, canon, merge, prune, verify, stamp, upgrade, sample, chain\n",
        ),
        Status::BadProof(fault) => put_fault(name, *fault, out),
        Status::NoFile => put_name("no file ", name, out),
        Status::Exists => put_name("exists ", name, out),
        Status::ReadFault => put_name("read fault ", name, out),
        Status::WriteFault => put_name("write fault ", name, out),
        Status::TooBig => put_name("too big ", name, out),
        Status::BadHeaders(length) => put_number("bad headers ", *length, out),
        Status::TooFew { got, wanted } => put_too_few(*got, *wanted, out),
        Status::NonceFault => out.word("nonce fault\n"),
        Status::FileTooLong => put_name("file too long ", name, out),
        Status::BadAddress { place, https } => put_bad_address(*place as u64, *https, out),
        Status::Differs {
            first_hash,
            first_digest,
            second_hash,
            second_digest,
        } => put_pairs(*first_hash, first_digest, *second_hash, second_digest, out),
        Status::Broken { height, fault } => put_broken(*height, *fault, out),
        Status::BadPins(number) => put_number("bad pins line ", *number, out),
        Status::PinFails(height) => put_number("pin fails ", *height, out),
        Status::Done | Status::No | Status::OutOfMemory => {}
    }
}

/// Puts the line for an input that is no proof file.
fn put_fault<K: Sink>(name: &str, fault: Fault, out: &mut Printer<'_, K>)
    ensures { Puts K.taken K.faults K.same (refusal_text name.now (BadProof fault)) out.old out.new }
{
    out.word("bad proof ");
    out.word(name);
    out.word(" at ");
    out.number(fault.place);
    out.word(": ");
    out.word(fault.reason.words());
    out.word("\n");
}

/// Puts the line for a header that is not good.
fn put_broken<K: Sink>(height: u64, fault: ChainFault, out: &mut Printer<'_, K>)
    ensures { Puts K.taken K.faults K.same (refusal_text [] (Broken height fault)) out.old out.new }
{
    out.word("broken at ");
    out.number(height);
    out.word(": ");
    out.word(fault_words(fault));
    out.word("\n");
}

/// Why a header is not good.
fn fault_words(fault: ChainFault) -> &'static str
    ensures { result.now ≡ fault_words fault }
{
    match fault {
        ChainFault::BadLink => "bad link",
        ChainFault::BadBits => "bad bits",
        ChainFault::AboveTarget => "above target",
    }
}

/// Puts the line for too few calendars.
fn put_too_few<K: Sink>(got: u32, wanted: u32, out: &mut Printer<'_, K>)
    ensures { Puts K.taken K.faults K.same (refusal_text [] (TooFew got wanted)) out.old out.new }
{
    out.word("too few ");
    out.number(got as u64);
    out.word(" of ");
    out.number(wanted as u64);
    out.word("\n");
}

/// Puts the line for two proofs that can't be joined.
fn put_pairs<K: Sink>(
    first_hash: HashOp,
    first_digest: &Digest,
    second_hash: HashOp,
    second_digest: &Digest,
    out: &mut Printer<'_, K>,
)
    ensures { Puts K.taken K.faults K.same
        (refusal_text [] (Differs first_hash first_digest.now second_hash second_digest.now)) out.old out.new }
{
    out.word("differs ");
    put_pair(first_hash, first_digest, out);
    out.word(" ");
    put_pair(second_hash, second_digest, out);
    out.word("\n");
}
