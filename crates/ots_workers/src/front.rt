//! Accepter, clock and nonces, as they stand together under one lock, and the calls on them.
ghost use Rattle.std.proofs.Props.{props};
ghost use Rattle.std.specs.Prelude.{◌≡◌, ◌≢◌, true, false, ◌<◌, ◌≤◌, ◌||◌, is_err, not, IfSome, IfNone};
ghost use Rattle.ots_base.specs.Cause.{HasCause};
ghost use Rattle.ots_base.specs.Told.{IfTold};
ghost use Rattle.ots_outside.specs.Accepter.{Accepts, GivesBack, accepted_after};
ghost use Rattle.ots_outside.specs.Link.{IsFresh};
ghost use Rattle.ots_connection.specs.Answered.{IsAnswered};
ghost use Rattle.ots_workers.specs.Over.{Reaches, IsOver};
ghost use Rattle.ots_workers.specs.Returned.{AllAnswered, NoneReturned};
ghost use Rattle.ots_workers.specs.Turns.{accept_answer, MatchTurn, Draws};

use ots_outside::{Accepter, Clock, Failed, Nonces, OneNonce};

/// Where connections come in, with what each of them is handed.
///
/// `failed` is true only where the accepter's count of faults isn't 0. Where `short` is false, every
/// link that the accepter tells as given back is answered.
pub struct Front<A: Accepter, C: Clock, N: Nonces> {
    pub accepter: A,
    pub clock: C,
    pub nonces: N,
    /// An `accept` failed.
    pub failed: bool,
    /// A link was given back for want of memory, and may be without its reply.
    pub short: bool,
    pub ghost faulty: { failed ≡ true → A.faults accepter ≢ 0 },
    pub ghost answered: { short ≡ false
        → AllAnswered A.Link.told A.Link.faults (A.returned accepter) } by { Prim.hlevel props },
}

impl<A: Accepter, C: Clock, N: Nonces> Front<A, C, N> {
    /// A front at which no accept has failed and nothing was given back.
    pub fn new(accepter: A, clock: C, nonces: N) -> Front<A, C, N>
        requires none_returned { NoneReturned (A.returned accepter) }
        ensures parts { (result.accepter ≡ accepter) × (result.clock ≡ clock) × (result.nonces ≡ nonces) }
        ensures clear { (result.failed ≡ false) × (result.short ≡ false) }
    {
        Front {
            accepter,
            clock,
            nonces,
            failed: false,
            short: false,
        }
    }

    /// Accepts one link, reads the second and draws one nonce. `None` comes exactly as from
    /// `accept`. `Failed` comes only where the accepter's count of faults rose, and `failed` is then
    /// true. Where no link came, clock and nonces are as before.
    pub fn turn(&mut self) -> Result<Option<Turn<A::Link>>, Failed>
        ensures accepts { Accepts (A.coming self.old.accepter) (A.coming self.new.accepter) (accept_answer result) }
        ensures fresh { MatchTurn result (λ turn. IsFresh (A.Link.told turn.link) (A.Link.faults turn.link))
            (Unit {0}) }
        ensures returned { A.returned self.new.accepter ≡ A.returned self.old.accepter }
        ensures accepted { A.accepted self.new.accepter ≡ accepted_after (A.accepted self.old.accepter)
            (accept_answer result) }
        ensures cause { HasCause (A.faults self.old.accepter) (A.faults self.new.accepter) result }
        ensures second { MatchTurn result (λ turn. IfTold (C.coming self.old.clock) (λ second. turn.second ≡ second))
            (self.new.clock ≡ self.old.clock) }
        ensures nonce { MatchTurn result
            (λ turn. Draws turn.nonce.nonce (N.left self.old.nonces) (N.left self.new.nonces) (N.faults self.old.nonces)
            (N.faults self.new.nonces))
            (self.new.nonces ≡ self.old.nonces) }
        ensures undrawn { MatchTurn result (λ turn. turn.nonce.faults ≡ 0) (Unit {0}) }
        ensures failed { self.new.failed ≡ (is_err result || self.old.failed) }
        ensures short { self.new.short ≡ self.old.short }
    {
        match self.accepter.accept() {
            Ok(Some(link)) => {
                let second = self.clock.second();
                let nonce = OneNonce::new(draw(&mut self.nonces));
                Ok(Some(Turn {
                    link,
                    second,
                    nonce,
                }))
            }
            Ok(None) => Ok(None),
            Err(Failed) => {
                self.failed = true;
                Err(Failed)
            }
        }
    }

    /// A turn, unless an accept has failed or `most` links were accepted. `None` comes only where
    /// serving is over.
    pub(crate) fn next(&mut self, most: Option<u64>) -> Option<Turn<A::Link>>
        ensures fresh { IfSome result (λ turn. IsFresh (A.Link.told turn.link) (A.Link.faults turn.link)) }
        ensures within { IfSome most (λ n. A.accepted self.old.accepter ≤ n → A.accepted self.new.accepter ≤ n) }
        ensures returned { A.returned self.new.accepter ≡ A.returned self.old.accepter }
        ensures short { self.new.short ≡ self.old.short }
        ensures over { IfNone result (IsOver self.new.failed (A.coming self.new.accepter) most
            (A.accepted self.new.accepter)) }
    {
        if self.failed || has_all(most, self.accepter.accepted()) {
            return None;
        }
        match self.turn() {
            Ok(turn) => turn,
            Err(Failed) => None,
        }
    }

    /// Gives a link back to the accepter, and sets `short` where it isn't `answered`. All else stays.
    pub fn give_back(&mut self, link: A::Link, answered: bool)
        requires { answered ≡ true → IsAnswered (A.Link.told link) (A.Link.faults link) }
        ensures returned { GivesBack (A.returned self.old.accepter) link (A.returned self.new.accepter) }
        ensures coming { A.coming self.new.accepter ≡ A.coming self.old.accepter }
        ensures accepted { A.accepted self.new.accepter ≡ A.accepted self.old.accepter }
        ensures faults { A.faults self.new.accepter ≡ A.faults self.old.accepter }
        ensures short { self.new.short ≡ (not answered || self.old.short) }
        ensures rest { (self.new.clock ≡ self.old.clock) × (self.new.nonces ≡ self.old.nonces)
            × (self.new.failed ≡ self.old.failed) }
    {
        self.accepter.give_back(link);
        if !answered {
            self.short = true;
        }
    }
}

/// A connection with what it is served by.
pub struct Turn<L> {
    pub link: L,
    /// The Unix second at which it was accepted.
    pub second: u64,
    /// The nonce that was drawn for it, or none where the draw failed.
    pub nonce: OneNonce,
}

/// Whether as many links were accepted as were asked for.
fn has_all(most: Option<u64>, count: u64) -> bool
    ensures reached { result ≡ true → Reaches most count }
    ensures below { result ≡ false → IfSome most (λ n. count < n) }
{
    most.is_some_and(|most| most <= count)
}

/// One nonce, or none where the draw fails.
fn draw<N: Nonces>(nonces: &mut N) -> Option<[u8; 16]>
    ensures { Draws result (N.left nonces.old) (N.left nonces.new) (N.faults nonces.old) (N.faults nonces.new) }
{
    let mut nonce = [0; 16];
    match nonces.fill16(&mut nonce) {
        Ok(()) => Some(nonce),
        Err(Failed) => None,
    }
}
