// Numbers as the format spells them.
//
// | line | its answer |
// |---|---|
// | `number write N` | its spelling in ten bytes 55, its length twice, and what is read there |
// | `number read BYTES` | what these bytes begin with, at once and byte by byte |
// | `number length BYTES` | what a length from 1 to 4096 comes to, byte by byte |
use crate::names::Names;
use crate::words::{bytes_of, number_of, split_word};
use ots_row_words::Said;
use ots_varint::{
    LengthStep, Step, VarbytesState, VaruintRead, VaruintState, put_varuint, read_varuint,
    varuint_length,
};

/// Answers a question about numbers.
pub fn answer(names: &Names, text: &str, said: &mut Said) {
    let (word, rest) = split_word(text);
    match word {
        "write" => write(number_of(rest), said),
        "read" => read(&bytes_of(names, rest), said),
        _ => say_length(fed_length(&bytes_of(names, rest)), said),
    }
}

fn write(number: u64, said: &mut Said) {
    let mut out = [0x55; 10];
    let length = put_varuint(number, &mut out);
    said.bytes(&out);
    said.count(length);
    said.count(varuint_length(number));
    read(&out, said);
}

fn read(bytes: &[u8], said: &mut Said) {
    say_read(read_varuint(bytes), said);
    say_step(fed(bytes), said);
}

/// The answer to the bytes fed one by one, up to the first that isn't `More`.
fn fed(bytes: &[u8]) -> Step {
    let mut state = VaruintState::new();
    for byte in bytes {
        match state.feed(*byte) {
            Step::More => {}
            answer => return answer,
        }
    }
    Step::More
}

/// The same of a length from 1 to 4096.
fn fed_length(bytes: &[u8]) -> LengthStep {
    let mut state = VarbytesState::new(1, 4096);
    for byte in bytes {
        match state.feed(*byte) {
            LengthStep::More => {}
            answer => return answer,
        }
    }
    LengthStep::More
}

fn say_read(read: VaruintRead, said: &mut Said) {
    match read {
        VaruintRead::Value(number, used) => {
            said.number(number);
            said.word("in");
            said.count(used);
        }
        VaruintRead::Short => said.word("short"),
        VaruintRead::NonMinimal => said.word("not minimal"),
        VaruintRead::TooLarge => said.word("too large"),
    }
}

fn say_step(step: Step, said: &mut Said) {
    said.word("fed");
    match step {
        Step::Value(number) => said.number(number),
        Step::More => said.word("more"),
        Step::NonMinimal => said.word("not minimal"),
        Step::TooLarge => said.word("too large"),
    }
}

fn say_length(step: LengthStep, said: &mut Said) {
    match step {
        LengthStep::Length(length) => said.number(u64::from(length)),
        LengthStep::TooShort(length) => say_limit("too short", length, said),
        LengthStep::TooLong(length) => say_limit("too long", length, said),
        LengthStep::More => said.word("more"),
        LengthStep::NonMinimal => said.word("not minimal"),
        LengthStep::TooLarge => said.word("too large"),
    }
}

fn say_limit(words: &str, length: u64, said: &mut Said) {
    said.word(words);
    said.number(length);
}
