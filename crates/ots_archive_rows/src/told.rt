// What is told of a run.
use crate::run::Left;
use ots_row_words::Said;

/// Tells a line of the script.
pub fn tell_line(line: &str, said: &mut Said) {
    said.push(line);
    said.push("\n");
}

/// Tells what a run left: its text, the files that it made, and the number that it ended with.
pub fn tell_left(left: &Left, said: &mut Said) {
    tell_text(&left.text, said);
    for file in left.made.rows() {
        said.push("+");
        said.quoted(file.name.as_bytes());
        said.count(file.bytes.len());
        said.push("\n");
    }
    said.push("=");
    said.number(u64::from(left.number));
    said.push("\n");
}

/// Tells what was printed, in quotes if it is not UTF-8.
fn tell_text(text: &[u8], said: &mut Said) {
    match str::from_utf8(text) {
        Ok(text) => said.push(text),
        Err(_) => {
            said.push("= printed");
            said.quoted(text);
            said.push("\n");
        }
    }
}

/// Tells whether these are the bytes that were wanted, and what there is where they are not.
pub fn tell_compared(found: Option<&[u8]>, wanted: &[u8], said: &mut Said) {
    match found {
        Some(bytes) if bytes == wanted => said.push("= so it is"),
        Some(bytes) => {
            said.push("= no:");
            said.bytes(bytes);
        }
        None => said.push("= no: nothing"),
    }
    said.push("\n");
}
