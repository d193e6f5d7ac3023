//! A walk over the tokens of a tree.
ghost use Rattle.std.specs.Prelude.{◌≡◌, ◌<◌, ◌≤◌, true, false, [], Some, Option, IfOk, IfErr, IsOk, length};
ghost use Rattle.std.specs.Prelude.{if◌then◌else◌};
ghost use Rattle.ots_ops.specs.declared.op.Op.{Op};
ghost use Rattle.ots_attest.specs.declared.attestation.Attestation.{Attestation};
ghost use Rattle.ots_tree.specs.declared.token.Token.TheVariants as token;
ghost use Rattle.ots_tree.specs.Walk.{next, begun, open_at, none_open};

use ots_base::OutOfMemory;
use std::alloc::Global;
use std::marker::Model;

/// What a walk over the tokens of a tree carries to each node that is open. The next token stands at
/// the last one.
#[derive(Drop)]
pub struct Walk<T> {
    last: T,
    /// Whether the last token is a fork.
    forked: bool,
    /// What is carried to the other open nodes, the last one last.
    others: Vec<T>,
}

impl<T> Model for Walk<T> {
    ghost use Rattle.std.specs.Prelude.{reverse, vec_capacity};
    ghost use Rattle.ots_tree.specs.Walk.{Position};

    ghost Value = { Position T };

    ghost view = { λ a. record {
      last = a.last;
      others = reverse a.others.items;
      forked = a.forked;
      room = vec_capacity a.others;
    } };
}

impl<T: Drop> Walk<T> {
    /// Before the first token of a tree, with what is carried to its root. It takes no memory.
    pub fn begin(alloc: Global, first: T) -> Walk<T>
        ensures { open_at result ≡ begun first }
    {
        Walk {
            last: first,
            forked: false,
            others: Vec::new(alloc),
        }
    }

    /// The same, with room for `count` other nodes, in memory of `alloc`.
    pub fn begin_with_room(alloc: Global, first: T, count: usize) -> Result<Walk<T>, OutOfMemory>
        ensures begun { IfOk result (λ walk. open_at walk ≡ begun first) }
        ensures room { IfOk result (λ walk. walk.room ≡ count) }
    {
        Ok(Walk {
            last: first,
            forked: false,
            others: Vec::with_capacity(alloc, count)?,
        })
    }

    /// Begins anew, with what is carried to the root. It takes no memory.
    pub fn restart(&mut self, first: T)
        ensures begun { open_at self.new ≡ begun first }
        ensures room { self.new.room ≡ self.old.room }
    {
        self.last = first;
        self.forked = false;
        self.others.clear();
    }

    /// What is carried to the node at which the next token stands.
    pub fn carried(&self) -> &T
        ensures { result.now ≡ self.now.last }
    {
        &self.last
    }

    /// Whether the last token is a fork.
    pub fn is_forked(&self) -> bool
        ensures { result ≡ self.now.forked }
    {
        self.forked
    }

    /// How many other nodes are open.
    pub fn others(&self) -> usize
        ensures { result ≡ length self.now.others }
    {
        self.others.len()
    }

    /// How many other nodes there is room for, before more memory is taken.
    pub fn room(&self) -> usize
        ensures { result ≡ self.now.room }
    {
        self.others.capacity()
    }

    /// A fork, which keeps the last node open for another item. The copy is of what is carried there.
    /// It takes no memory while there is room for one more of the other open nodes, and without memory
    /// the walk stays as it is.
    pub fn keep(&mut self, copy: T) -> Result<(), OutOfMemory>
        requires { copy ≡ self.old.last }
        ensures forked { self.old.forked ≡ false → IfOk result (λ _. (by : Op → T → Option T)
            → next by token.Fork (open_at self.old) ≡ Some (open_at self.new)) }
        ensures stays { IfErr result (λ _. open_at self.new ≡ open_at self.old) }
        ensures room { length self.old.others < self.old.room → IsOk result }
        ensures kept_room { self.old.room ≤ self.new.room }
        ensures same_room { length self.old.others < self.old.room → self.new.room ≡ self.old.room }
    {
        if self.others.len() < self.others.capacity() {
            self.others.push_reserved(copy);
        } else {
            self.others.push(copy)?;
        }
        self.forked = true;
        Ok(())
    }

    /// An operation, which leads to the node of its result, with what is carried there.
    pub fn lead(&mut self, to: T)
        ensures led { (by : Op → T → Option T) (o : Op) → by o self.old.last ≡ Some to
            → next by (token.Op o) (open_at self.old) ≡ Some (open_at self.new) }
        ensures room { self.new.room ≡ self.old.room }
    {
        self.last = to;
        self.forked = false;
    }

    /// An attestation, which closes the last node. Whether another node is open: if not, the walk is
    /// at its end, and keeps what was carried to that node.
    pub fn close(&mut self) -> bool
        ensures closed { (by : Op → T → Option T) (a : Attestation)
            → next by (token.Attestation a) (open_at self.old) ≡ Some (if result then open_at self.new else none_open) }
        ensures end { result ≡ false → open_at self.new ≡ begun self.old.last }
        ensures room { self.new.room ≡ self.old.room }
    {
        self.forked = false;
        match self.others.pop() {
            Some(last) => {
                self.last = last;
                true
            }
            None => false,
        }
    }
}

impl<T: Copy> Walk<T> {
    /// What is carried to the node at which the next token stands, where it is a plain value.
    pub fn last(&self) -> T
        ensures { result ≡ self.now.last }
    {
        self.last
    }

    /// A fork, as `keep`, of a plain value.
    pub fn fork(&mut self) -> Result<(), OutOfMemory>
        ensures forked { self.old.forked ≡ false → IfOk result (λ _. (by : Op → T → Option T)
            → next by token.Fork (open_at self.old) ≡ Some (open_at self.new)) }
        ensures stays { IfErr result (λ _. open_at self.new ≡ open_at self.old) }
        ensures room { length self.old.others < self.old.room → IsOk result }
        ensures kept_room { self.old.room ≤ self.new.room }
        ensures same_room { length self.old.others < self.old.room → self.new.room ≡ self.old.room }
    {
        self.keep(self.last)
    }
}
