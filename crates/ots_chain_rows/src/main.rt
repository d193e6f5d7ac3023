//! Rows of chains of headers as data: the script on standard input, and on standard output what came of each
//! line. The expected transcript is another program's, interop/chain_rows.py.
//!
//! | line | what it says |
//! |---|---|
//! | `target BITS` | the target that these compact bits, in hexadecimal digits, stand for is printed, or `none` |
//! | `table HEIGHT` | a table begins at this height, with no headers yet |
//! | `header DIGITS` | the table has one header more, of 80 bytes |
//! | `change N PLACE BIT` | this bit of this byte of the table's header N, from 0, is turned |
//! | `check` | what the check of the table answers is printed |
//! | `pins` | a file of pins begins, with no bytes yet |
//! | `line COUNT TEXT` | the file of pins has this line and its line feed so many times more |
//! | `bytes DIGITS` | the file of pins has these bytes more |
//! | `read NUMBER` | what reading the file of pins gives is printed, where the read of this number fails |
//! | `compare` | the height of the first pin that the table does not hold is printed, or `held` |
//!
//! Each line but those of headers is printed, and below it what came of it.
#![tactic(auto)]

mod pins;
mod table;

use crate::pins::PinsFile;
use crate::table::{Table, target_line};
use std::io;
use std::io::Write;

fn main(rt: HostRuntime) -> io::Result<()> {
    let alloc = rt.alloc();
    let mut table = Table::new(alloc);
    let mut pins = PinsFile::new(alloc);
    for line in rt.lines(alloc) {
        let line = line?;
        let (word, rest) = line.as_str().split_once(' ').unwrap_or((line.as_str(), ""));
        let said = match word {
            "header" => {
                table.add(alloc, rest)?;
                continue;
            }
            "table" => table.begin(alloc, rest)?,
            "target" => target_line(alloc, rest)?,
            "change" => table.change(alloc, rest)?,
            "check" => table.check_line(alloc)?,
            "pins" => pins.begin(alloc),
            "line" => pins.add_lines(alloc, rest)?,
            "bytes" => pins.add_bytes(alloc, rest)?,
            "read" => pins.read_line(alloc, rest)?,
            "compare" => pins.compare_line(alloc, &table)?,
            _ => String::new(alloc),
        };
        println!(rt; "{}", line.as_str())?;
        io::writer(&rt).write_all(said.as_bytes())?;
    }
    Ok(())
}
