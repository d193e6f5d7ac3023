//! Lines that both programs print.
ghost use Rattle.std.specs.Prelude.{◌≡◌, ◌++◌, decimal};
ghost use Rattle.ots_printer.specs.Printing.{Puts};
ghost use Rattle.ots_outputs.specs.Lines.{address_words, line};

use ots_outside::Sink;
use ots_printer::Printer;

/// Puts a line of words and a name.
pub fn put_name<K: Sink>(words: &str, name: &str, out: &mut Printer<'_, K>)
    ensures { Puts K.taken K.faults K.same (line (words.now ++ name.now)) out.old out.new }
{
    out.word(words);
    out.word(name);
    out.word("\n");
}

/// Puts a line of words and a number.
pub fn put_number<K: Sink>(words: &str, number: u64, out: &mut Printer<'_, K>)
    ensures { Puts K.taken K.faults K.same (line (words.now ++ decimal number)) out.old out.new }
{
    out.word(words);
    out.number(number);
    out.word("\n");
}

/// Puts the line for a piece of a list that is no calendar address: where it stands, and whether it begins
/// with `https://`.
pub fn put_bad_address<K: Sink>(place: u64, https: bool, out: &mut Printer<'_, K>)
    ensures { Puts K.taken K.faults K.same (line (address_words https ++ decimal place)) out.old out.new }
{
    put_number(address_words(https), place, out);
}

/// The words before the place of a piece that is no calendar address.
fn address_words(https: bool) -> &'static str
    ensures { result.now ≡ address_words https }
{
    if https {
        "https is not supported at "
    } else {
        "bad address at "
    }
}
