//! The top call.
ghost use Rattle.ots_base.specs.Cause.{Rose};
ghost use Rattle.ots_cli.specs.Answer.{Answers, inputs_read};
ghost use Rattle.ots_cli.specs.Asking.{Asks, DrawsFor};
ghost use Rattle.ots_cli.specs.Ran.{BoundsMemory, Ran};
ghost use Rattle.ots_client_endings.specs.Outside.{Happens};
ghost use Rattle.ots_client_endings.specs.Runs.{Runs, at};
ghost use Rattle.ots_client_words.specs.Words.{asked, read_as};
ghost use Rattle.std.specs.Prelude.{Some};

use ots_checking::{chain, sample, verify};
use ots_client_endings::refuse;
use ots_client_text::Status;
use ots_client_words::{ClientCommand, WordsError, read_words};
use ots_completing::upgrade;
use ots_outside::{Dialer, Nonces, Shelf, Sink};
use ots_rewriting::{Rewriting, info, merge, rewrite};
use ots_stamping::stamp;
use std::alloc::Global;

/// Does what the words after the program's name ask for, prints on the sink, and answers how it
/// ended. [`Status`] says when each status comes; where several of them could, the first in the
/// order of reading does. Each has one line, or the command's text, but want of memory and a sink
/// that failed.
///
/// It opens the files that the command reads, in order, each only once all before it are there and
/// accepted, creates its outputs last, and changes no other name. `stamp` and `upgrade` read their
/// list of calendars before any file, and ask calendars, each in a conversation of its own, before
/// they make an output. `stamp` draws a nonce for each file. The other commands leave the dialer as
/// it is, and all but `stamp` the nonces.
pub fn run_client<S: Shelf, K: Sink, D: Dialer, N: Nonces>(
    alloc: Global,
    words: &[String],
    shelf: &mut S,
    out: &mut K,
    dialer: &mut D,
    nonces: &mut N,
) -> Status
    ensures ran { Ran (Happens D.told D.faults N.left N.faults dialer.old dialer.new nonces.old nonces.new)
        (Rose (N.faults nonces.old) (N.faults nonces.new)) (asked words.now)
        (at S.told S.faults K.taken K.faults shelf.old out.old)
        (at S.told S.faults K.taken K.faults shelf.new out.new) result }
    ensures asks { Asks D.told D.faults N.left (S.told shelf.old).names (asked words.now) dialer.old dialer.new
        nonces.old nonces.new }
    ensures draws { DrawsFor N.left (asked words.now) nonces.old nonces.new }
    ensures same { K.same out.old out.new }
{
    match read_words(alloc, words) {
        Ok(command) => run_command(alloc, command, shelf, out, dialer, nonces),
        Err(WordsError::Usage) => refuse("", Status::Usage, out),
        Err(WordsError::OutOfMemory) => Status::OutOfMemory,
    }
}

/// Does a command.
fn run_command<S: Shelf, K: Sink, D: Dialer, N: Nonces>(
    alloc: Global,
    command: ClientCommand<'_>,
    shelf: &mut S,
    out: &mut K,
    dialer: &mut D,
    nonces: &mut N,
) -> Status
    ensures runs { Runs (Answers
        (Happens D.told D.faults N.left N.faults dialer.old dialer.new nonces.old nonces.new)
        (Some (read_as command.entry))) (inputs_read (Some (read_as command.entry)))
        (at S.told S.faults K.taken K.faults shelf.old out.old)
        (at S.told S.faults K.taken K.faults shelf.new out.new) result }
    ensures bounded { BoundsMemory (Some (read_as command.entry)) (S.told shelf.old) (S.told shelf.new) result }
    ensures asks { Asks D.told D.faults N.left (S.told shelf.old).names (Some (read_as command.entry)) dialer.old
        dialer.new nonces.old nonces.new }
    ensures draws { DrawsFor N.left (Some (read_as command.entry)) nonces.old nonces.new }
    ensures same { K.same out.old out.new }
{
    match command {
        ClientCommand::Info(name) => info(alloc, name, shelf, out),
        ClientCommand::Canon(from, to) => rewrite(alloc, Rewriting::Canon, from, to, shelf, out),
        ClientCommand::Merge(first, second, to) => merge(alloc, first, second, to, shelf, out),
        ClientCommand::Prune(from, to) => rewrite(alloc, Rewriting::Prune, from, to, shelf, out),
        ClientCommand::Verify(asked) => verify(alloc, asked, shelf, out),
        ClientCommand::Stamp(asked) => stamp(alloc, asked, shelf, out, dialer, nonces),
        ClientCommand::Upgrade(asked) => upgrade(alloc, asked, shelf, out, dialer),
        ClientCommand::Sample(asked) => sample(alloc, asked, out),
        ClientCommand::Chain(asked) => chain(alloc, asked, shelf, out),
    }
}
