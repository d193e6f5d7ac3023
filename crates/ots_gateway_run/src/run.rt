//! The top call.
ghost use Rattle.std.specs.Prelude.{◌≡◌, ◌≤◌};
ghost use Rattle.ots_base.specs.Cause.{Rose};
ghost use Rattle.ots_outputs.specs.Printed.{SinkStays};
ghost use Rattle.ots_gateway_words.specs.Lines.{listening_line};
ghost use Rattle.ots_gateway_words.specs.Words.{asked, read_as};
ghost use Rattle.ots_gateway_run.specs.Rounds.{LinesPrinted, RoundsEnd};
ghost use Rattle.ots_gateway_run.specs.Run.{Ends, Listens, OverAsked, OverCalendars, address_status, until_from};

use crate::rounds::{Rounds, serve_rounds};
use ots_address::{Address, AddressError, read_addresses};
use ots_gateway_words::{
    GateStatus, Gathering, WordsError, print_listening, print_refusal, read_words,
};
use ots_outside::{Accepter, Dialer, Failed, Nonces, Sink};
use std::alloc::Global;
use std::sync::Wait;

/// Does what the words after the program's name ask for, prints on the sink, and answers how it ended.
/// [`GateStatus`] says when each status comes.
///
/// It listens on the port, prints that, and serves rounds: of up to K links each, or fewer where the
/// accepter is at its end, as many were accepted as the words ask for, or an accept failed. After each
/// round it gives the links back and prints what came of asking each calendar, and how many links were
/// stamped. The room for the links of a round is taken before the first is accepted. It may wait, and
/// need not return; its promises hold where it does.
pub fn run_gateway<A: Accepter, T: Dialer, N: Nonces, K: Sink, R: Wait>(
    rt: &R,
    alloc: Global,
    words: &[String],
    accepter: &mut A,
    dialer: &mut T,
    nonces: &mut N,
    out: &mut K,
) -> GateStatus
    ensures ends { Ends
        (record {
          coming = A.coming;
          returned = A.returned;
          accepted = A.accepted;
          accept_faults = A.faults;
          link_told = A.Link.told;
          link_faults = A.Link.faults;
          told = T.told;
          dial_faults = T.faults;
        })
        (asked words.now) (Rose (K.faults out.old) (K.faults out.new))
        (record {
          accepter = accepter.old;
          dialer = dialer.old;
          nonces = record { left = N.left nonces.old; faults = N.faults nonces.old };
        })
        (record {
          accepter = accepter.new;
          dialer = dialer.new;
          nonces = record { left = N.left nonces.new; faults = N.faults nonces.new };
        })
        (K.taken out.old) (K.taken out.new) result }
    ensures sink { SinkStays K.faults K.same out.old out.new }
{
    match read_words(alloc, words) {
        Ok(asked) => {
            let status = gather(rt, alloc, &asked, accepter, dialer, nonces, out);
            print_refusal(status, out)
        }
        Err(WordsError::Usage) => print_refusal(GateStatus::Usage, out),
        Err(WordsError::OutOfMemory) => print_refusal(GateStatus::OutOfMemory, out),
    }
}

/// Reads the calendars' addresses, and serves rounds with them.
fn gather<A: Accepter, T: Dialer, N: Nonces, K: Sink, R: Wait>(
    rt: &R,
    alloc: Global,
    asked: &Gathering<'_>,
    accepter: &mut A,
    dialer: &mut T,
    nonces: &mut N,
    out: &mut K,
) -> GateStatus
    ensures comes { (e : RoundsEnd) × (e.status ≡ result) × OverAsked
        (record {
          coming = A.coming;
          returned = A.returned;
          accepted = A.accepted;
          accept_faults = A.faults;
          link_told = A.Link.told;
          link_faults = A.Link.faults;
          told = T.told;
          dial_faults = T.faults;
        })
        (read_as asked.now) (Rose (K.faults out.old) (K.faults out.new))
        (record {
          accepter = accepter.old;
          dialer = dialer.old;
          nonces = record { left = N.left nonces.old; faults = N.faults nonces.old };
        })
        (record {
          accepter = accepter.new;
          dialer = dialer.new;
          nonces = record { left = N.left nonces.new; faults = N.faults nonces.new };
        })
        e × LinesPrinted (Rose (K.faults out.old) (K.faults out.new)) e (K.taken out.old) (K.taken out.new) }
    ensures sink { SinkStays K.faults K.same out.old out.new }
{
    match read_addresses(alloc, asked.calendars) {
        Ok(calendars) => { gather_for(rt, alloc, asked, &calendars, accepter, dialer, nonces, out) }
        Err(error) => address_status(error),
    }
}

/// Takes the room for the links of a round, listens, and serves rounds.
fn gather_for<A: Accepter, T: Dialer, N: Nonces, K: Sink, R: Wait>(
    rt: &R,
    alloc: Global,
    asked: &Gathering<'_>,
    calendars: &[Address],
    accepter: &mut A,
    dialer: &mut T,
    nonces: &mut N,
    out: &mut K,
) -> GateStatus
    ensures comes { (e : RoundsEnd) × (e.status ≡ result) × OverCalendars
        (record {
          coming = A.coming;
          returned = A.returned;
          accepted = A.accepted;
          accept_faults = A.faults;
          link_told = A.Link.told;
          link_faults = A.Link.faults;
          told = T.told;
          dial_faults = T.faults;
        })
        (read_as asked.now) calendars.now (Rose (K.faults out.old) (K.faults out.new))
        (record {
          accepter = accepter.old;
          dialer = dialer.old;
          nonces = record { left = N.left nonces.old; faults = N.faults nonces.old };
        })
        (record {
          accepter = accepter.new;
          dialer = dialer.new;
          nonces = record { left = N.left nonces.new; faults = N.faults nonces.new };
        })
        e × LinesPrinted (Rose (K.faults out.old) (K.faults out.new)) e (K.taken out.old) (K.taken out.new) }
    ensures sink { SinkStays K.faults K.same out.old out.new }
{
    let rounds = Rounds {
        calendars,
        min: asked.min,
        round: asked.round,
        until: until_from(accepter.accepted(), asked.accept),
    };
    let Ok(mut links) = Vec::with_capacity(alloc, asked.round as usize) else {
        return GateStatus::OutOfMemory;
    };
    match listen(asked.port, accepter, out) {
        Ok(()) => {
            let status = serve_rounds(
                rt, alloc, &rounds, &mut links, accepter, dialer, nonces, out,
            );
            links.destroy_empty();
            status
        }
        Err(status) => {
            links.destroy_empty();
            status
        }
    }
}

/// Listens on a port, and prints that.
fn listen<A: Accepter, K: Sink>(port: u16, accepter: &mut A, out: &mut K) -> Result<(), GateStatus>
    ensures listens { Listens (Rose (K.faults out.old) (K.faults out.new))
        (Rose (A.faults accepter.old) (A.faults accepter.new)) (listening_line port) (K.taken out.old)
        (K.taken out.new) result }
    ensures coming { A.coming accepter.new ≡ A.coming accepter.old }
    ensures returned { A.returned accepter.new ≡ A.returned accepter.old }
    ensures accepted { A.accepted accepter.new ≡ A.accepted accepter.old }
    ensures later { A.faults accepter.old ≤ A.faults accepter.new }
    ensures sink { SinkStays K.faults K.same out.old out.new }
{
    match accepter.listen(port) {
        Ok(()) => match print_listening(port, out) {
            Ok(()) => Ok(()),
            Err(Failed) => Err(GateStatus::WriteFault),
        },
        Err(Failed) => Err(GateStatus::AcceptFault),
    }
}

/// The count at which no more links are accepted, of so many from this count on.
fn until_from(count: u64, accept: Option<u64>) -> Option<u64>
    ensures { result ≡ until_from count accept }
{
    accept.map(|accept| count.saturating_add(accept))
}

/// The status of a word that is no list of addresses.
fn address_status(error: AddressError) -> GateStatus
    ensures { result ≡ address_status error }
{
    match error {
        AddressError::BadAddress { place, https } => GateStatus::BadAddress {
            place: place as u64,
            https,
        },
        AddressError::OutOfMemory => GateStatus::OutOfMemory,
    }
}
