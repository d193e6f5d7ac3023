// The source and the sink in memory.
use ots_io::{BytesSink, BytesSource, Failed, OutOfMemory, Sink, Source};
use std::alloc::Global;
use std::process::Abort;
use std::test::Fail;

/// How many bytes each read gave, and all of them.
#[derive(Drop)]
struct Came {
    counts: Vec<usize>,
    bytes: Vec<u8>,
}

/// Reads once, adds the bytes to those that came before, and answers how many they are.
fn read_on<S: Source>(source: &mut S, buf: &mut [u8], came: &mut Vec<u8>) -> Result<usize, Fail> {
    let count = source.read(buf)?;
    came.extend_from_slice(&buf[..count])?;
    Ok(count)
}

/// What so many reads into the buffer give.
fn read_times<S: Source>(
    alloc: Global,
    source: &mut S,
    buf: &mut [u8],
    times: usize,
) -> Result<Came, Fail> {
    let mut came = Came {
        counts: Vec::new(alloc),
        bytes: Vec::new(alloc),
    };
    for _ in 0..times {
        let count = read_on(source, buf, &mut came.bytes)?;
        came.counts.push(count)?;
    }
    Ok(came)
}

/// The same of `abcdef` in these pieces.
fn read_cut(alloc: Global, pieces: &[usize], buf: &mut [u8], times: usize) -> Result<Came, Fail> {
    let mut source = BytesSource::new(alloc, b"abcdef", pieces, &[])?;
    read_times(alloc, &mut source, buf, times)
}

/// Reads of `abcdef` in these pieces, each into the buffer, give so many bytes, and all of it.
fn expect_cut(
    rt: &(impl Abort + AllocGlobal),
    pieces: &[usize],
    buf: &mut [u8],
    counts: &[usize],
) -> Result<(), Fail> {
    let came = read_cut(rt.alloc(), pieces, buf, counts.len())?;
    assert_eq!(rt; came.counts.as_slice(), counts);
    assert_eq!(rt; came.bytes.as_slice(), b"abcdef".as_slice());
    Ok(())
}

#[test]
fn a_source_is_cut_into_the_listed_pieces(rt: HostRuntime) -> Result<(), Fail> {
    expect_cut(&rt, &[], &mut [0; 8], &[6, 0])?;
    expect_cut(
        &rt,
        &[1, 1, 1, 1, 1, 1],
        &mut [0; 8],
        &[1, 1, 1, 1, 1, 1, 0],
    )?;
    expect_cut(&rt, &[2, 2, 2], &mut [0; 8], &[2, 2, 2, 0])?;
    expect_cut(&rt, &[1, 2], &mut [0; 2], &[1, 2, 2, 1, 0])?;
    expect_cut(&rt, &[0, 9], &mut [0; 8], &[1, 5, 0])
}

/// What four reads answer.
fn read_four<S: Source>(source: &mut S, buf: &mut [u8]) -> [Result<usize, Failed>; 4] {
    [
        source.read(buf),
        source.read(buf),
        source.read(buf),
        source.read(buf),
    ]
}

/// The same of `abcdef`, four bytes at first, where the second and the third fail.
fn read_failing(alloc: Global, buf: &mut [u8]) -> Result<[Result<usize, Failed>; 4], OutOfMemory> {
    let mut source = BytesSource::new(alloc, b"abcdef", &[4], &[2, 3])?;
    Ok(read_four(&mut source, buf))
}

#[test]
fn a_failed_read_leaves_the_next_one_whole(rt: HostRuntime) -> Result<(), Fail> {
    let mut buf = [0; 8];
    let answers = read_failing(rt.alloc(), &mut buf)?;
    assert_eq!(rt; answers, [Ok(4), Err(Failed), Err(Failed), Ok(2)]);
    assert_eq!(rt; buf, *b"efcd\0\0\0\0");
    Ok(())
}

/// What the writes of ab, c, de and nothing answer.
fn write_four<K: Sink>(sink: &mut K) -> [Result<usize, Failed>; 4] {
    [
        sink.write(b"ab"),
        sink.write(b"c"),
        sink.write(b"de"),
        sink.write(b""),
    ]
}

/// What a sink took, and what it answered to four writes.
#[derive(Drop)]
struct Taken {
    answers: [Result<usize, Failed>; 4],
    bytes: Vec<u8>,
}

/// What a sink of this capacity takes, which fails at these writes.
fn taken_by(alloc: Global, capacity: usize, failing: &[u64]) -> Result<Taken, OutOfMemory> {
    let mut sink = BytesSink::new(alloc, capacity, failing)?;
    let answers = write_four(&mut sink);
    let bytes = sink.bytes().to_vec(alloc)?;
    Ok(Taken { answers, bytes })
}

/// A sink of this capacity, which fails at these writes, answers four writes so, and has taken these
/// bytes then.
fn expect_taken(
    rt: &(impl Abort + AllocGlobal),
    capacity: usize,
    failing: &[u64],
    answers: [Result<usize, Failed>; 4],
    bytes: &[u8],
) -> Result<(), Fail> {
    let taken = taken_by(rt.alloc(), capacity, failing)?;
    assert_eq!(rt; taken.answers, answers);
    assert_eq!(rt; taken.bytes.as_slice(), bytes);
    Ok(())
}

#[test]
fn a_sink_takes_up_to_its_capacity(rt: HostRuntime) -> Result<(), Fail> {
    let failed = Err(Failed);
    expect_taken(&rt, 8, &[], [Ok(2), Ok(1), Ok(2), Ok(0)], b"abcde")?;
    expect_taken(&rt, 5, &[], [Ok(2), Ok(1), Ok(2), Ok(0)], b"abcde")?;
    expect_taken(&rt, 4, &[], [Ok(2), Ok(1), failed, Ok(0)], b"abc")?;
    expect_taken(&rt, 0, &[], [failed, failed, failed, Ok(0)], b"")?;
    expect_taken(&rt, 8, &[2, 4], [Ok(2), failed, Ok(2), failed], b"abde")
}
