//! How long the message of a node is, and how deep the node stands.
use ots_base::MAX_OPERATIONS;
use ots_ops::OpRef;

/// What a tree is read or written below: the length of its message and the operations before it.
#[derive(Clone, Copy)]
pub struct Shape {
    /// How many bytes the message has: 1 to 4096.
    pub length: u32,
    /// How many operations are on the path already: 0 to 255.
    pub depth: u32,
}

impl Shape {
    ghost use Rattle.std.specs.Prelude.{◌≡◌, nat_le, nat_lt};
    ghost use Rattle.ots_ops.specs.OpRef.{op_of};
    ghost use Rattle.ots_tree.specs.Front.{shape_after};

    /// Whether no more operations are on the path than may be.
    pub fn is_within(self) -> bool
        ensures { result ≡ nat_le self.depth MAX_OPERATIONS }
    {
        self.depth <= MAX_OPERATIONS
    }

    /// Whether one operation more may stand on the path.
    pub fn has_room(self) -> bool
        ensures { result ≡ nat_lt self.depth MAX_OPERATIONS }
    {
        self.depth < MAX_OPERATIONS
    }

    /// The shape of the node to which the operation leads, where it has a result there and one
    /// operation more may stand on the path. It takes no memory.
    #[inline(always)]
    pub fn after(self, op: OpRef<'_>) -> Option<Shape>
        ensures { result ≡ shape_after (op_of op.entry) self }
    {
        if !self.has_room() {
            return None;
        }
        match op.result_length(self.length as usize) {
            Ok(length) => Some(Shape {
                length: length as u32,
                depth: self.depth + 1,
            }),
            Err(_) => None,
        }
    }
}
