// A script: its lines, and the blocks in which each call fails in turn.
use crate::scene::Scene;
use crate::spelling::number_of;
use ots_io::OutOfMemory;
use std::alloc::Global;
use std::sync::Wait;
use std::thread::Threads;

/// Lines that are done again and again: the object whose calls fail in turn in the first run of each
/// time, up to which call, and the lines.
#[derive(Drop)]
struct Block {
    object: String,
    last: u64,
    lines: Vec<String>,
}

/// The scene, and the block whose end is still to come.
#[derive(Drop)]
pub struct Script {
    scene: Scene,
    block: Option<Block>,
}

impl Script {
    /// Nothing was said yet.
    pub fn new(alloc: Global) -> Script {
        Script {
            scene: Scene::new(alloc),
            block: None,
        }
    }

    /// Does what a line says, and gives what is to be printed: the line, and what came of it.
    pub fn obey<R: AllocGlobal + Threads + Wait + Sync>(
        &mut self,
        rt: &R,
        line: &str,
    ) -> Result<Vec<u8>, OutOfMemory> {
        let alloc = rt.alloc();
        let mut said = Vec::new(alloc);
        said.extend_from_slice(line.as_bytes())?;
        said.push(b'\n')?;
        let came = match self.block.take() {
            Some(block) => self.go_on(rt, block, line)?,
            None => match line.strip_prefix("each ") {
                Some(calls) => {
                    self.begin(alloc, calls)?;
                    Vec::new(alloc)
                }
                None => self.scene.obey(rt, line)?,
            },
        };
        said.extend_from_slice(came.as_slice())?;
        Ok(said)
    }

    /// Begins a block, of an object and the number of its last call that fails.
    fn begin(&mut self, alloc: Global, calls: &str) -> Result<(), OutOfMemory> {
        let (object, last) = calls.split_once(' ').unwrap_or((calls, ""));
        self.block = Some(Block {
            object: object.to_string(alloc)?,
            last: number_of(last),
            lines: Vec::new(alloc),
        });
        Ok(())
    }

    /// Takes a line of a block, or does the block where it ends.
    fn go_on<R: AllocGlobal + Threads + Wait + Sync>(
        &mut self,
        rt: &R,
        block: Block,
        line: &str,
    ) -> Result<Vec<u8>, OutOfMemory> {
        let alloc = rt.alloc();
        if line == "end" {
            return each_call(rt, &mut self.scene, &block);
        }
        let mut block = block;
        block.lines.push(line.to_string(alloc)?)?;
        self.block = Some(block);
        Ok(Vec::new(alloc))
    }
}

/// What came of calls that made the same difference: the first and the last of them.
#[derive(Drop)]
struct Span {
    first: u64,
    last: u64,
    came: Vec<u8>,
}

/// Does a block where each call fails in turn, and tells what came of it, once for calls side by side
/// of which the same came.
fn each_call<R: AllocGlobal + Threads + Wait + Sync>(
    rt: &R,
    scene: &mut Scene,
    block: &Block,
) -> Result<Vec<u8>, OutOfMemory> {
    let alloc = rt.alloc();
    let journal = scene.journal()?;
    let mut said = Vec::new(alloc);
    let mut span = Span {
        first: 1,
        last: 0,
        came: Vec::new(alloc),
    };
    for call in 1..=block.last {
        let came = once(rt, scene, block, &journal, call)?;
        if came.as_slice() != span.came.as_slice() {
            push_span(alloc, &mut said, &span)?;
            span.first = call;
            span.came = came;
        }
        span.last = call;
    }
    push_span(alloc, &mut said, &span)?;
    Ok(said)
}

/// Does the lines of a block from this journal on, where this call fails in the first run.
fn once<R: AllocGlobal + Threads + Wait + Sync>(
    rt: &R,
    scene: &mut Scene,
    block: &Block,
    journal: &[u8],
    call: u64,
) -> Result<Vec<u8>, OutOfMemory> {
    let alloc = rt.alloc();
    scene.put_journal(alloc, journal)?;
    scene.fail(alloc, block.object.as_str(), call)?;
    let mut came = Vec::new(alloc);
    for line in &block.lines {
        came.extend_from_slice(scene.obey(rt, line.as_str())?.as_slice())?;
    }
    Ok(came)
}

/// Appends which calls made this difference, and what came of it.
fn push_span(alloc: Global, said: &mut Vec<u8>, span: &Span) -> Result<(), OutOfMemory> {
    let first = span.first;
    let last = span.last;
    if first > last {
        return Ok(());
    }
    let line = if first == last {
        format!(in alloc; "= call {first}\n")?
    } else {
        format!(in alloc; "= calls {first} to {last}\n")?
    };
    said.extend_from_slice(line.as_bytes())?;
    said.extend_from_slice(span.came.as_slice())?;
    Ok(())
}
