//! What is told of a run.

use ots_calendar_endings::Outside;
use ots_calendar_serve::{Links, Returned};
use ots_disk::Disk;
use ots_outside::{Accepter, Clock, Nonces, Shelf, Sink};

/// All that lies outside a run, as contracts see it: its disk, the files that it reads, its sink, its
/// accepter, its clock and its nonces.
pub trait Run {
    ghost use Rattle.ots_calendar_commands.specs.Meaning.{RunTold};

    /// What is handed back.
    type After;

    /// What is told of a run, before and after.
    ghost told: { Self → Self.After → RunTold };
}

impl<D: Disk, S: Shelf, K: Sink, A: Accepter, C: Clock, N: Nonces> Run for (D, S, K, A, C, N) {
    ghost use Rattle.ots_calendar_batch.specs.Batch.{draws_told};

    type After = (Returned<D, A, N>, S, K);

    ghost told = { λ o n. record {
      old = ⟦<(D, S, K) as Outside>⟧.told (o.0, o.1, o.2);
      new = ⟦<(D, S, K) as Outside>⟧.told (n.0.disk, n.1, n.2);
      draws = draws_told C.coming N.left N.faults o.4 o.5 n.0.nonces;
      links = ⟦<A as Links>⟧.told n.0.accepter;
    } };
}
