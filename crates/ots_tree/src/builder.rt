//! A tree whose tokens come one after the other.
ghost use Rattle.std.specs.Prelude.{◌≡◌, ◌∷◌, ◌++◌, [], IfOk, IfErr};
ghost use Rattle.ots_tree.specs.Wire.{IsPre};

use crate::token::{Token, limits_of_token};
use crate::tree::{Tree, count};
use crate::walk::Walk;
use ots_base::OutOfMemory;
use std::alloc::Global;
use std::marker::Model;

/// A tree whose tokens come in preorder, one after the other. It counts the operations before each of
/// them as it comes.
///
/// Contracts see the list of the tokens that have come.
#[derive(Drop)]
pub struct TreeBuilder {
    tokens: Vec<Token>,
    /// Beside each token the number of operations before it, as in a tree.
    depths: Vec<u32>,
    /// How many operations are before each node that is open.
    walk: Walk<u32>,
}

impl Model for TreeBuilder {
    ghost use Rattle.std.specs.Prelude.{List};
    ghost use Rattle.ots_tree.specs.declared.token.Token.{Token};
    ghost use Rattle.ots_tree.specs.Built.{IsBuilt};
    ghost use Rattle.ots_tree.specs.Walk.{open_at};

    ghost Value = { List Token };

    ghost view = { λ b. b.tokens.items };

    ghost invariant = { λ b. IsBuilt b.tokens.items b.depths.items (open_at b.walk) };
}

impl TreeBuilder {
    /// No token yet. All memory is the allocator's, and none is taken.
    pub fn new(alloc: Global) -> TreeBuilder
        ensures { result ≡ [] }
    {
        TreeBuilder {
            tokens: Vec::new(alloc),
            depths: Vec::new(alloc),
            walk: Walk::begin(alloc, 0),
        }
    }

    /// Where its memory comes from.
    pub fn allocator(&self) -> Global {
        *self.tokens.allocator()
    }

    /// Makes room for `additional` more tokens at once. Without memory for that they need not be there: each
    /// of them still takes its own.
    pub fn reserve(&mut self, additional: usize) -> Result<(), OutOfMemory>
        ensures { self.new ≡ self.old }
    {
        self.tokens.reserve(additional)?;
        self.depths.reserve(additional)?;
        Ok(())
    }

    /// Puts the token after the others. Without memory they stay as they are.
    pub fn push(&mut self, token: Token) -> Result<(), OutOfMemory>
        ensures pushed { IfOk result (λ _. self.new ≡ self.old ++ token ∷ []) }
        ensures stays { IfErr result (λ _. self.new ≡ self.old) }
    {
        limits_of_token(&token);
        self.tokens.reserve(1)?;
        self.depths.reserve(1)?;
        let depth = self.walk.last();
        count(&mut self.walk, &token)?;
        self.tokens.push_reserved(token);
        self.depths.push_reserved(depth);
        Ok(())
    }

    /// The tree with the tokens that have come, which are those of some tree. It takes no memory.
    pub fn build(self) -> Tree
        requires { IsPre self }
        ensures { result ≡ self }
    {
        let TreeBuilder {
            tokens,
            depths,
            walk: _,
        } = self;
        Tree::kept(tokens, depths)
    }
}
