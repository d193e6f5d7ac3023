//! The command `chain`.
ghost use Rattle.std.specs.Prelude.{◌≡◌, length};
ghost use Rattle.std.specs.Option.{option_map};
ghost use Rattle.ots_checking.specs.Chain.{ChecksChain, ChecksFile, HasPerhapsPins, RefusesPerhapsPins, failing_of};
ghost use Rattle.ots_checking.specs.Chain.{inputs_chained, items_of, perhaps_pins};
ghost use Rattle.ots_client_endings.specs.Reading.{Reads};
ghost use Rattle.ots_client_endings.specs.Runs.{Finishes, Runs, at};
ghost use Rattle.ots_client_words.specs.Words.{read_chaining};
ghost use Rattle.ots_client_endings.specs.Runs.{Moment};
ghost use Rattle.ots_outside.specs.Shelf.{ShelfFaults, ShelfTold};
ghost use Rattle.ots_outputs.specs.Printed.{SinkStays};

use ots_chain::{ChainCheck, Pin, check, failing_pin};
use ots_client_endings::{print, refuse, refuse_stop};
use ots_client_inputs::{read_headers, read_pins};
use ots_client_text::{Status, put_chain};
use ots_client_words::Chaining;
use ots_headers::Headers;
use ots_inputs::Stop;
use ots_outputs::PrintedText;
use ots_outside::{Shelf, Sink};
use ots_printer::Printer;
use std::alloc::Global;

/// What is printed of headers that are all good.
#[derive(Clone, Copy)]
struct WholeChain {
    /// The height of the first.
    first: u64,
    /// The height of the last.
    last: u64,
    /// The hash of the last.
    tip: [u8; 32],
    /// How many pins they have, where pins are given.
    pins: Option<usize>,
}

impl PrintedText for WholeChain {
    ghost use Rattle.std.specs.Prelude.{◌≡◌};
    ghost use Rattle.ots_client_text.specs.Lines.{chain_text};

    ghost is_text = { λ t bytes. bytes ≡ chain_text t.first t.last t.tip t.pins };

    fn put<K: Sink>(&self, out: &mut Printer<'_, K>) {
        put_chain(self.first, self.last, &self.tip, self.pins, out)
    }
}

/// Prints whether headers stand one on the other, each with its proof of work, and have the block hashes of the pins,
/// where pins are given.
pub fn chain<S: Shelf, K: Sink>(
    alloc: Global,
    asked: Chaining<'_>,
    shelf: &mut S,
    out: &mut K,
) -> Status
    ensures runs { Runs (λ told. ChecksFile told (read_chaining asked.entry))
        (inputs_chained (read_chaining asked.entry))
        (at S.told S.faults K.taken K.faults shelf.old out.old)
        (at S.told S.faults K.taken K.faults shelf.new out.new) result }
    ensures same { K.same out.old out.new }
{
    let headers = match read_headers(alloc, asked.headers, shelf) {
        Ok(headers) => headers,
        Err(stop) => return refuse_stop(stop, out),
    };
    match read_perhaps_pins(alloc, asked.pins, shelf) {
        Ok(pins) => tell_chain(&headers, &pins, out),
        Err(stop) => refuse_stop(stop, out),
    }
}

/// Checks headers, and then by pins where they are given, and prints that.
fn tell_chain<K: Sink>(headers: &Headers, pins: &Option<Vec<Pin>>, out: &mut K) -> Status
    ensures finishes { (shelf : ShelfTold) (faults : ShelfFaults)
        → Finishes (ChecksChain headers.now (items_of pins.now))
        (record { shelf = shelf; faults = faults; taken = K.taken out.old; lost = K.faults out.old })
        (record { shelf = shelf; faults = faults; taken = K.taken out.new; lost = K.faults out.new }) result }
    ensures same { K.same out.old out.new }
{
    match check(headers) {
        ChainCheck::Broken { height, fault } => refuse("", Status::Broken { height, fault }, out),
        ChainCheck::Whole { first, last, tip } => match failing(headers, pins) {
            Some(height) => refuse("", Status::PinFails(height), out),
            None => {
                let pins = count_of(pins);
                print(
                    &WholeChain {
                        first,
                        last,
                        tip,
                        pins,
                    },
                    Status::Done,
                    out,
                )
            }
        },
    }
}

/// The height of the first pin that the headers do not have.
fn failing(headers: &Headers, pins: &Option<Vec<Pin>>) -> Option<u64>
    ensures { result ≡ failing_of headers.now (items_of pins.now) }
{
    match pins {
        Some(pins) => failing_pin(headers, pins),
        None => None,
    }
}

/// How many pins there are, where they are given.
fn count_of(pins: &Option<Vec<Pin>>) -> Option<usize>
    ensures { result ≡ option_map length (items_of pins.now) }
{
    match pins {
        Some(pins) => Some(pins.len()),
        None => None,
    }
}

/// The pins that may be given.
fn read_perhaps_pins<'a, S: Shelf>(
    alloc: Global,
    name: Option<&'a str>,
    shelf: &mut S,
) -> Result<Option<Vec<Pin>>, Stop<'a, Status>>
    ensures { Reads (perhaps_pins (option_map (λ s. s.now) name.entry))
        (λ told pins. HasPerhapsPins told (option_map (λ s. s.now) name.entry) (items_of pins))
        (λ told. RefusesPerhapsPins told (option_map (λ s. s.now) name.entry))
        (S.told shelf.old) (S.told shelf.new) (S.faults shelf.old) (S.faults shelf.new) result }
{
    match name {
        Some(name) => match read_pins(alloc, name, shelf) {
            Ok(pins) => Ok(Some(pins)),
            Err(stop) => Err(stop),
        },
        None => Ok(None),
    }
}
