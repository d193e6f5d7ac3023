//! The printing of a request sheet.
ghost use Rattle.std.specs.Prelude.{◌≡◌, ◌++◌, ◌∷◌, [], OnOk, false, map};
ghost use Rattle.ots_base.specs.Cause.{HasCause};
ghost use Rattle.ots_outside.specs.Streams.{Takes, TakesPrefix};
ghost use Rattle.ots_printer.specs.Printing.{Puts};
ghost use Rattle.ots_sheet.specs.Request.{request_line, request_parts};
ghost use Rattle.ots_sheet.specs.Sheet.{request_sheet};

use crate::lines_sum::LinesSum;
use crate::request::Request;
use ots_outside::{Failed, Sink};
use ots_printer::Printer;

/// Writes the sheet of these requests, or a prefix of it where a write fails. They are to be valid, in
/// the order of [`Request::order`] with none twice, and within the limits; else the sheet is none that
/// can be read. It takes no memory.
pub fn write_requests<K: Sink>(requests: &[Request<'_>], sink: &mut K) -> Result<(), Failed>
    ensures whole { OnOk result (Takes (K.taken sink.old) (K.taken sink.new)
        (request_sheet (map request_parts requests.now))) }
    ensures prefix { TakesPrefix (K.taken sink.old) (K.taken sink.new) (request_sheet (map request_parts requests.now)) }
    ensures cause { HasCause (K.faults sink.old) (K.faults sink.new) result }
    ensures same { K.same sink.old sink.new }
{
    print_sheet(requests, &mut Printer::new(sink))
}

/// Puts the sheet of these requests on a new printer, and finishes it.
fn print_sheet<K: Sink>(requests: &[Request<'_>], out: &mut Printer<'_, K>) -> Result<(), Failed>
    requires empty { out.old.held ≡ [] }
    requires good { out.old.failed ≡ false }
    ensures loan { out.new.sink.ghost_name ≡ out.old.sink.ghost_name }
    ensures whole { OnOk result (Takes (K.taken out.old.sink.now) (K.taken out.new.sink.now)
        (request_sheet (map request_parts requests.now))) }
    ensures prefix { TakesPrefix (K.taken out.old.sink.now) (K.taken out.new.sink.now)
        (request_sheet (map request_parts requests.now)) }
    ensures cause { HasCause (K.faults out.old.sink.now) (K.faults out.new.sink.now) result }
    ensures same { K.same out.old.sink.now out.new.sink.now }
{
    put_sheet(requests, out);
    match out.finish() {
        Ok(()) => Ok(()),
        Err(Failed) => Err(Failed),
    }
}

/// Puts the sheet of these requests.
fn put_sheet<K: Sink>(requests: &[Request<'_>], out: &mut Printer<'_, K>)
    ensures { Puts K.taken K.faults K.same (request_sheet (map request_parts requests.now)) out.old out.new }
{
    let mut sum = LinesSum::new();
    for request in requests {
        put_request(request, out, &mut sum);
    }
    out.word("sum ");
    out.number(requests.len() as u64);
    out.word(" ");
    out.hex(&sum.digest());
    out.word("\n");
}

/// Puts the line of a request, and adds it to the sum.
fn put_request<K: Sink>(request: &Request<'_>, out: &mut Printer<'_, K>, sum: &mut LinesSum)
    ensures puts { Puts K.taken K.faults K.same (request_line (request_parts request.now) ++ 10 ∷ []) out.old out.new }
    ensures sums { sum.new ≡ sum.old ++ (request_line (request_parts request.now) ++ 10 ∷ []) }
{
    put(request.kind.word(), out, sum);
    put(b" ", out, sum);
    put(request.url, out, sum);
    put(b" ", out, sum);
    out.hex(request.message);
    sum.add_hex(request.message);
    put(b"\n", out, sum);
}

/// Puts bytes, and adds them to the sum.
fn put<K: Sink>(bytes: &[u8], out: &mut Printer<'_, K>, sum: &mut LinesSum)
    ensures puts { Puts K.taken K.faults K.same bytes.now out.old out.new }
    ensures sums { sum.new ≡ sum.old ++ bytes.now }
{
    out.bytes(bytes);
    sum.add(bytes);
}
