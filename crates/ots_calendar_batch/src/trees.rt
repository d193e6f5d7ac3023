//! The trees of a round that is closed.
ghost use Rattle.ots_base.specs.Cause.{Rose};
ghost use Rattle.ots_printer.specs.Printing.{Puts};
ghost use Rattle.ots_calendar_endings.specs.Printed.{PrintsLast};
ghost use Rattle.ots_calendar_batch.specs.Trees.{trees_lines};
ghost use Rattle.ots_calendar_text.specs.declared.status.DaemonStatus.TheVariants.{Done};
ghost use Rattle.ots_outputs.specs.Printed.{SinkStays};

use ots_calendar_endings::{DaemonStatus, print_last};
use ots_calendar_text::put_tree;
use ots_outputs::PrintedText;
use ots_outside::Sink;
use ots_printer::Printer;
use ots_tree::Tree;

/// The index of a round's commitment, and the trees of its digests in their order.
#[derive(Drop)]
pub struct Trees {
    pub index: u64,
    pub trees: Vec<Tree>,
}

/// Prints a line for each tree.
pub fn print_trees<K: Sink>(trees: &Trees, out: &mut K) -> DaemonStatus
    ensures printed { PrintsLast (Rose (K.faults out.old) (K.faults out.new)) Done
        (trees_lines trees.now.index trees.now.trees.items) (K.taken out.old) (K.taken out.new)
        result }
    ensures sink { SinkStays K.faults K.same out.old out.new }
{
    print_last(trees, DaemonStatus::Done, out)
}

impl PrintedText for Trees {
    ghost use Rattle.std.specs.Prelude.{◌≡◌};
    ghost use Rattle.ots_calendar_batch.specs.Trees.{trees_lines};

    ghost is_text = { λ t bytes. bytes ≡ trees_lines t.index t.trees.items };

    fn put<K: Sink>(&self, out: &mut Printer<'_, K>) {
        put_lines(self, out);
    }
}

/// Puts a line for each tree.
fn put_lines<K: Sink>(trees: &Trees, out: &mut Printer<'_, K>)
    ensures { Puts K.taken K.faults K.same (trees_lines trees.now.index trees.now.trees.items)
        out.old out.new }
{
    for tree in &trees.trees {
        put_tree(trees.index, tree, out);
    }
}
