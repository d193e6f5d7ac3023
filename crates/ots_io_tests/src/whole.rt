// Whole inputs and whole texts.
use ots_io::{
    BytesSink, BytesSource, Failed, OutOfMemory, ReadAllError, Sink, Source, read_all, write_all,
};
use std::alloc::Global;
use std::process::Abort;
use std::test::Fail;

/// What any source gives up to a limit.
fn read_from<S: Source>(
    alloc: Global,
    source: &mut S,
    limit: u64,
) -> Result<Vec<u8>, ReadAllError> {
    read_all(alloc, source, limit)
}

/// What an input gives up to a limit, which comes in these pieces and fails at these reads.
fn read_whole(
    alloc: Global,
    input: &[u8],
    pieces: &[usize],
    failing: &[u64],
    limit: u64,
) -> Result<Result<Vec<u8>, ReadAllError>, Fail> {
    let mut source = BytesSource::new(alloc, input, pieces, failing)?;
    Ok(read_from(alloc, &mut source, limit))
}

/// An input in these pieces is read up to the limit.
fn expect_whole(
    rt: &(impl Abort + AllocGlobal),
    input: &[u8],
    pieces: &[usize],
    limit: u64,
) -> Result<(), Fail> {
    let read = read_whole(rt.alloc(), input, pieces, &[], limit)??;
    assert!(rt; read.as_slice() == input);
    Ok(())
}

/// An input in these pieces, which fails at these reads, is not read up to the limit, for this reason.
fn expect_refused(
    rt: &(impl Abort + AllocGlobal),
    input: &[u8],
    pieces: &[usize],
    failing: &[u64],
    limit: u64,
    error: ReadAllError,
) -> Result<(), Fail> {
    let read = read_whole(rt.alloc(), input, pieces, failing, limit)?;
    assert_eq!(rt; read.err(), Some(error));
    Ok(())
}

#[test]
fn a_whole_input_is_read_up_to_the_limit(rt: HostRuntime) -> Result<(), Fail> {
    expect_whole(&rt, b"", &[], 0)?;
    expect_whole(&rt, b"abcdef", &[], 6)?;
    expect_whole(&rt, b"abcdef", &[1, 2], 6)?;
    expect_whole(&rt, b"abcdef", &[], 18_446_744_073_709_551_615)
}

#[test]
fn an_input_past_the_limit_is_refused(rt: HostRuntime) -> Result<(), Fail> {
    expect_refused(&rt, b"abcdef", &[], &[], 5, ReadAllError::TooBig)?;
    expect_refused(&rt, b"abcdef", &[2, 3], &[], 5, ReadAllError::TooBig)?;
    expect_refused(&rt, b"a", &[], &[], 0, ReadAllError::TooBig)
}

#[test]
fn a_failed_read_is_answered(rt: HostRuntime) -> Result<(), Fail> {
    expect_refused(&rt, b"abcdef", &[1, 2], &[3], 6, ReadAllError::ReadFault)?;
    expect_refused(&rt, b"abcdef", &[], &[2], 6, ReadAllError::ReadFault)
}

/// 300,000 bytes.
fn long_input(alloc: Global) -> Result<Vec<u8>, Fail> {
    let mut input = Vec::new(alloc);
    for i in 0..300_000u32 {
        input.push((i % 251) as u8)?;
    }
    Ok(input)
}

#[test]
fn a_long_input_is_read_whole(rt: HostRuntime) -> Result<(), Fail> {
    let input = long_input(rt.alloc())?;
    expect_whole(&rt, &input, &[70_000, 1], 300_000)?;
    expect_refused(&rt, &input, &[], &[], 299_999, ReadAllError::TooBig)
}

/// What a source answers up to a limit of 3 bytes, and a read of two bytes after it.
fn read_past<S: Source>(
    alloc: Global,
    source: &mut S,
    buf: &mut [u8; 2],
) -> (Option<ReadAllError>, Result<usize, Failed>) {
    let refused = read_all(alloc, source, 3).err();
    (refused, source.read(buf))
}

/// The same of `abcdef`.
fn read_six_past(
    alloc: Global,
    buf: &mut [u8; 2],
) -> Result<(Option<ReadAllError>, Result<usize, Failed>), OutOfMemory> {
    let mut source = BytesSource::new(alloc, b"abcdef", &[], &[])?;
    Ok(read_past(alloc, &mut source, buf))
}

#[test]
fn one_byte_past_the_limit_is_read_and_no_more(rt: HostRuntime) -> Result<(), Fail> {
    let mut buf = [0; 2];
    let answers = read_six_past(rt.alloc(), &mut buf)?;
    assert_eq!(rt; answers, (Some(ReadAllError::TooBig), Ok(2)));
    assert_eq!(rt; buf, *b"ef");
    Ok(())
}

/// Whether a sink takes `abc`.
fn write_to<K: Sink>(sink: &mut K) -> bool {
    write_all(sink, b"abc").is_ok()
}

/// Whether a sink of this capacity takes `abc`, and what it has taken then.
fn written(alloc: Global, capacity: usize) -> Result<(bool, Vec<u8>), OutOfMemory> {
    let mut sink = BytesSink::new(alloc, capacity, &[])?;
    let is_whole = write_to(&mut sink);
    Ok((is_whole, sink.bytes().to_vec(alloc)?))
}

/// A sink of this capacity takes `abc` whole or not, and has taken these bytes then.
fn expect_written(
    rt: &(impl Abort + AllocGlobal),
    capacity: usize,
    is_whole: bool,
    taken: &[u8],
) -> Result<(), Fail> {
    let written = written(rt.alloc(), capacity)?;
    assert_eq!(rt; written.0, is_whole);
    assert_eq!(rt; written.1.as_slice(), taken);
    Ok(())
}

#[test]
fn a_whole_text_is_written_or_a_prefix_of_it(rt: HostRuntime) -> Result<(), Fail> {
    expect_written(&rt, 3, true, b"abc")?;
    expect_written(&rt, 2, false, b"")
}
