//! Names of files as they are shown.
ghost use Rattle.std.specs.Prelude.{◌≡◌, ◌++◌};
ghost use Rattle.ots_archive_text.specs.Names.{shown};
ghost use Rattle.ots_printer.specs.Printing.{Puts};
ghost use Rattle.ots_sums.specs.Names.{escape_of, escaped, spelled};

use ots_outside::Sink;
use ots_printer::Printer;
use ots_sums::is_escaped;

/// Puts a name as `sha256sum` shows it: as it is, or with a backslash before it and each backslash, line feed and
/// carriage return in it escaped by one. So it has no line feed.
pub fn put_shown<K: Sink>(name: &[u8], out: &mut Printer<'_, K>)
    ensures { Puts K.taken K.faults K.same (shown name.now) out.old out.new }
{
    if is_escaped(name) {
        out.word("\\");
        put_escaped(name, out);
    } else {
        out.bytes(name);
    }
}

/// Puts the bytes of a name, some of which are escaped.
fn put_escaped<K: Sink>(name: &[u8], out: &mut Printer<'_, K>)
    ensures { Puts K.taken K.faults K.same (escaped name.now) out.old out.new }
{
    for byte in name {
        put_byte(*byte, out);
    }
}

/// Puts one of them.
fn put_byte<K: Sink>(byte: u8, out: &mut Printer<'_, K>)
    ensures { Puts K.taken K.faults K.same (spelled byte (escape_of byte)) out.old out.new }
{
    match byte {
        b'\\' => out.word("\\\\"),
        b'\n' => out.word("\\n"),
        b'\r' => out.word("\\r"),
        _ => out.bytes(&[byte]),
    }
}
