// A script: its lines, and the blocks of them.
use crate::each::{Block, tell_each};
use crate::scene::Scene;
use ots_row_words::Said;
use std::alloc::Global;
use std::io;
use std::sync::Wait;

/// The scene, and the block whose end is still to come.
#[derive(Drop)]
pub struct Script {
    scene: Scene,
    block: Option<Block>,
}

impl Script {
    /// Nothing was said yet.
    pub fn new(alloc: Global) -> Script {
        Script {
            scene: Scene::new(alloc),
            block: None,
        }
    }

    /// Does what a line says, and tells the line, and what came of it.
    pub fn obey<R: Wait>(
        &mut self,
        rt: &R,
        alloc: Global,
        line: &str,
        said: &mut Said,
    ) -> io::Result<()> {
        said.push(line);
        said.push("\n");
        match self.block.take() {
            Some(block) => self.go_on(rt, alloc, block, line, said),
            None => match line.strip_prefix("each ") {
                Some(calls) => {
                    self.block = Some(Block::new(alloc, calls)?);
                    Ok(())
                }
                None => self.scene.obey(rt, alloc, line, said),
            },
        }
    }

    /// Takes a line of a block, or does the block where it ends.
    fn go_on<R: Wait>(
        &mut self,
        rt: &R,
        alloc: Global,
        block: Block,
        line: &str,
        said: &mut Said,
    ) -> io::Result<()> {
        if line == "end" {
            return tell_each(rt, alloc, &mut self.scene, &block, said);
        }
        let mut block = block;
        block.lines.push(line.to_string(alloc)?)?;
        self.block = Some(block);
        Ok(())
    }
}
