// Blocks of lines, in which each call of an object fails in turn.
use crate::scene::Scene;
use ots_row_words::{Said, malformed, number_of};
use std::alloc::Global;
use std::io;
use std::sync::Wait;

/// Lines that are done again and again: the object whose calls fail in turn in the first run of each time, up to which
/// call, and the lines.
#[derive(Drop)]
pub struct Block {
    object: String,
    last: u64,
    pub lines: Vec<String>,
}

impl Block {
    /// A block without lines, of an object and the number of its last call that fails.
    pub fn new(alloc: Global, calls: &str) -> io::Result<Block> {
        let (object, last) = calls.split_once(' ').ok_or_else(malformed)?;
        Ok(Block {
            object: object.to_string(alloc)?,
            last: number_of(last)?,
            lines: Vec::new(alloc),
        })
    }
}

/// What came of calls that made the same difference: the first and the last of them.
#[derive(Drop)]
struct Span {
    first: u64,
    last: u64,
    came: Said,
}

/// Does a block where each call fails in turn, and tells what came of it, once for calls side by side of which the same
/// came.
pub fn tell_each<R: Wait>(
    rt: &R,
    alloc: Global,
    scene: &mut Scene,
    block: &Block,
    said: &mut Said,
) -> io::Result<()> {
    let mut span = Span {
        first: 1,
        last: 0,
        came: Said::new(alloc),
    };
    for call in 1..=block.last {
        let came = once(rt, alloc, scene, block, call)?;
        if came.words() != span.came.words() {
            tell_span(&span, said);
            span.first = call;
            span.came = came;
        }
        span.last = call;
    }
    tell_span(&span, said);
    Ok(())
}

/// What comes of the lines of a block where this call fails in the first run.
fn once<R: Wait>(
    rt: &R,
    alloc: Global,
    scene: &mut Scene,
    block: &Block,
    call: u64,
) -> io::Result<Said> {
    let mut came = Said::new(alloc);
    let mut calls = Vec::new(alloc);
    calls.push(call)?;
    scene.on.fail(block.object.as_str(), calls)?;
    for line in &block.lines {
        scene.obey(rt, alloc, line.as_str(), &mut came)?;
    }
    Ok(came)
}

/// Tells which calls made this difference, and what came of it.
fn tell_span(span: &Span, said: &mut Said) {
    if span.first > span.last {
        return;
    }
    if span.first == span.last {
        said.push("= call");
        said.number(span.first);
    } else {
        said.push("= calls");
        said.number(span.first);
        said.word("to");
        said.number(span.last);
    }
    said.push("\n");
    said.push(span.came.words());
}
