ghost use Rattle.std.specs.Prelude.{◌≡◌, ℕ, List};
ghost use Rattle.std.specs.declared.option.Option.{Option};
ghost use Rattle.ots_base.specs.Cause.{HasCause};
ghost use Rattle.ots_outside.specs.Accepter.{Accepts, GivesBack, IfAccepted, accepted_after};
ghost use Rattle.ots_outside.specs.Link.{IsFresh};

use crate::{Failed, Link};

/// A place where connections come in, as a listening socket.
///
/// Nothing here lets code that is generic over an accepter drop a link, so it gives each one back.
pub trait Accepter {
    /// A connection.
    type Link: Link + Send;

    /// The links to come, where they are told.
    ghost coming: { Self → Option (List Self.Link) };

    /// The links that were given back, in order, where they are told.
    ghost returned: { Self → Option (List Self.Link) };

    /// How many links `accept` has answered. At 2^64 - 1 the count stays.
    ghost accepted: { Self → ℕ };

    /// How often a call has failed. At 2^64 - 1 the count stays.
    ghost faults: { Self → ℕ };

    /// Begins to listen on this port. All that is told stays.
    fn listen(&mut self, port: u16) -> Result<(), Failed>
        ensures coming { coming self.new ≡ coming self.old }
        ensures returned { returned self.new ≡ returned self.old }
        ensures accepted { accepted self.new ≡ accepted self.old }
        ensures cause { HasCause (faults self.old) (faults self.new) result };

    /// The first of the links to come, which has given and taken nothing and counts no fault.
    /// `None` is answered exactly where the told list of them is empty, so an accepter that tells
    /// none never answers it.
    fn accept(&mut self) -> Result<Option<Self::Link>, Failed>
        ensures accepts { Accepts (coming self.old) (coming self.new) result }
        ensures fresh { IfAccepted result (λ link. IsFresh (Self.Link.told link) (Self.Link.faults link)) }
        ensures returned { returned self.new ≡ returned self.old }
        ensures accepted { accepted self.new ≡ accepted_after (accepted self.old) result }
        ensures cause { HasCause (faults self.old) (faults self.new) result };

    /// Gives a link back, whose conversation is done. It can't fail. An accepter whose room for them
    /// has ended stops telling which links were given back.
    fn give_back(&mut self, link: Self::Link)
        ensures returned { GivesBack (returned self.old) link (returned self.new) }
        ensures coming { coming self.new ≡ coming self.old }
        ensures accepted { accepted self.new ≡ accepted self.old }
        ensures faults { faults self.new ≡ faults self.old };

    /// How many links `accept` has answered.
    fn accepted(&self) -> u64
        ensures { result ≡ accepted self.now };
}
