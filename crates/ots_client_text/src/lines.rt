//! The lines of the commands.
ghost use Rattle.std.specs.Prelude.{◌≡◌, ◌++◌, codes};
ghost use Rattle.hex.specs.Hex.{encode_lower};
ghost use Rattle.ots_printer.specs.Printing.{Puts};
ghost use Rattle.ots_client_text.specs.Lines.{chain_text, complete_text, sample_text, tip_line, verdict_text};
ghost use Rattle.ots_client_text.specs.Lines.{wrote_text, yes_words};
ghost use Rattle.ots_outputs.specs.Lines.{line};
ghost use Rattle.ots_verdicts.specs.declared.verdicts.Verdict.TheVariants.{Yes};

use ots_outputs::put_number;
use ots_outside::Sink;
use ots_printer::Printer;
use ots_sample::Sample;
use ots_verdicts::{Chain, Verdict};

/// Puts the line of a verdict.
pub fn put_verdict<K: Sink>(verdict: Verdict, out: &mut Printer<'_, K>)
    ensures { Puts K.taken K.faults K.same (verdict_text verdict) out.old out.new }
{
    match verdict {
        Verdict::Yes {
            chain,
            height,
            time,
        } => put_yes(chain, height, time, out),
        Verdict::NoDigest => out.word("no digest\n"),
        Verdict::NoPath => out.word("no path\n"),
    }
}

/// Puts the line of a yes.
fn put_yes<K: Sink>(chain: Chain, height: u64, time: u32, out: &mut Printer<'_, K>)
    ensures { Puts K.taken K.faults K.same (verdict_text (Yes chain height time)) out.old out.new }
{
    out.word(yes_words(chain));
    out.number(height);
    out.word(" time ");
    out.number(time as u64);
    out.word("\n");
}

/// The words before the height in the line of a yes.
fn yes_words(chain: Chain) -> &'static str
    ensures { result.now ≡ yes_words chain }
{
    match chain {
        Chain::Bitcoin => "yes block ",
        Chain::Litecoin => "yes litecoin block ",
    }
}

/// Puts what is told of a chain of headers, each of which is good: the heights of the first and the last, the hash of
/// the last, and how many pins it has, where there are any to be looked at.
pub fn put_chain<K: Sink>(
    first: u64,
    last: u64,
    tip: &[u8; 32],
    pins: Option<usize>,
    out: &mut Printer<'_, K>,
)
    ensures { Puts K.taken K.faults K.same (chain_text first last tip.now pins) out.old out.new }
{
    put_tip(first, last, tip, out);
    if let Some(count) = pins {
        put_number("pins ", count as u64, out);
    }
}

/// Puts the line of a chain of headers.
fn put_tip<K: Sink>(first: u64, last: u64, tip: &[u8; 32], out: &mut Printer<'_, K>)
    ensures { Puts K.taken K.faults K.same (tip_line first last tip.now) out.old out.new }
{
    let mut shown = *tip;
    shown.reverse();
    out.word("chain ");
    out.number(first);
    out.word(" to ");
    out.number(last);
    out.word(" tip ");
    out.hex(&shown);
    out.word("\n");
}

/// Puts what is told of a sample.
pub fn put_sample<K: Sink>(sample: &Sample, out: &mut Printer<'_, K>)
    ensures { Puts K.taken K.faults K.same (sample_text sample.now) out.old out.new }
{
    put_number("paths ", sample.paths as u64, out);
    put_number("bytes ", sample.length, out);
    put_digest(&sample.digest, out);
    put_verdict(sample.verdict, out);
}

/// Puts the line of a digest.
fn put_digest<K: Sink>(digest: &[u8], out: &mut Printer<'_, K>)
    ensures { Puts K.taken K.faults K.same (line (codes "digest " ++ encode_lower digest.now)) out.old out.new }
{
    out.word("digest ");
    out.hex(digest);
    out.word("\n");
}

/// Puts the line that tells whether an upgraded proof is complete.
pub fn put_complete<K: Sink>(complete: bool, out: &mut Printer<'_, K>)
    ensures { Puts K.taken K.faults K.same (complete_text complete) out.old out.new }
{
    out.word(if complete { "complete\n" } else { "pending\n" });
}

/// Puts the line that tells that the proof of a file was made.
pub fn put_wrote<K: Sink>(name: &str, out: &mut Printer<'_, K>)
    ensures { Puts K.taken K.faults K.same (wrote_text name.now) out.old out.new }
{
    out.word("wrote ");
    out.word(name);
    out.word(".ots");
    out.word("\n");
}
