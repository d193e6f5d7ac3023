//! What is told of links.

use ots_outside::Accepter;

/// An accepter, as contracts see what came of its links.
pub trait Links {
    ghost use Rattle.ots_calendar_serve.specs.Serve.{LinksTold};

    /// What it tells of them.
    ghost told: { Self → LinksTold };
}

impl<A: Accepter> Links for A {
    ghost use Rattle.std.specs.Prelude.{◌≢◌};
    ghost use Rattle.ots_workers.specs.Over.{IsDone};
    ghost use Rattle.ots_workers.specs.Returned.{AllAnswered};

    ghost told = { λ a. record {
      over = λ most. IsDone (A.coming a) most (A.accepted a);
      answered = AllAnswered A.Link.told A.Link.faults (A.returned a);
      failed = A.faults a ≢ 0;
      accepted = A.accepted a;
    } };
}
