ghost use Rattle.std.specs.Prelude.{◌≡◌, ◌++◌, ◌∷◌, ◌-◌, ◌&&◌, List, [], true, nat_lt, length, All, Some, IfOk, is_err};
ghost use Rattle.std.specs.Prelude.{if◌then◌else◌};
ghost use Rattle.std.specs.declared.option.Option.{Option};
ghost use Rattle.ots_base.specs.Cause.{HasCause};
ghost use Rattle.ots_memory.specs.Calls.{is_next_listed, after_call, faults_after};
ghost use Rattle.ots_memory.specs.ListAccepterTold.{returned_of};
ghost use Rattle.ots_outside.specs.Accepter.{Accepts, GivesBack, IfAccepted, accepted_after};
ghost use Rattle.ots_outside.specs.Link.{IsFresh};

use crate::calls::Calls;
use ots_base::OutOfMemory;
use ots_outside::{Accepter, Count, Failed, Link};
use std::alloc::Global;
use std::collections::VecDeque;
use std::marker::Model;

/// Connections from a list. A call of `listen` or `accept` fails exactly where its number is listed
/// to fail.
///
/// It has room for as many links to be given back as it was made with. Once more come back, it
/// drops what finds no room, and tells no more which links were given back.
#[derive(Drop)]
pub struct ListAccepter<L: Link + Drop> {
    coming: VecDeque<L>,
    kept: Vec<L>,
    room: usize,
    tells: bool,
    accepted: Count,
    calls: Calls,
    faults: Count,
}

impl<L: Link + Drop> Model for ListAccepter<L> {
    ghost use Rattle.std.specs.Prelude.{◌≤◌, ◌+◌, All, length, vec_capacity};
    ghost use Rattle.ots_memory.specs.ListAccepterTold.{ListAccepterTold};
    ghost use Rattle.ots_outside.specs.Link.{IsFresh};

    ghost Value = { ListAccepterTold L };

    ghost view = { λ s. record {
      coming = s.coming.items;
      kept = s.kept.items;
      room = s.room;
      tells = s.tells;
      accepted = s.accepted;
      calls = s.calls;
      faults = s.faults;
    } };

    ghost invariant = { λ s. All (λ link. IsFresh (L.told link) (L.faults link)) s.coming.items
        × (length s.kept.items + s.room ≤ vec_capacity s.kept) };
}

impl<L: Link + Drop> ListAccepter<L> {
    /// These links, in order. The calls of the numbers `failing` fail: `listen` and `accept` are
    /// counted together, the first being number 1.
    pub fn new(
        alloc: Global,
        coming: VecDeque<L>,
        failing: &[u64],
    ) -> Result<ListAccepter<L>, OutOfMemory>
        requires fresh { All (λ link. IsFresh (L.told link) (L.faults link)) coming.items }
        ensures coming { IfOk result (λ s. s.coming ≡ coming.items) }
        ensures kept { IfOk result (λ s. s.kept ≡ []) }
        ensures room { IfOk result (λ s. s.room ≡ length coming.items) }
        ensures tells { IfOk result (λ s. s.tells ≡ true) }
        ensures accepted { IfOk result (λ s. s.accepted ≡ 0) }
        ensures calls { IfOk result (λ s. s.calls ≡ record { failing = failing.now; made = 0 }) }
        ensures faults { IfOk result (λ s. s.faults ≡ 0) }
    {
        let room = coming.len();
        Ok(ListAccepter {
            coming,
            kept: Vec::with_capacity(alloc, room)?,
            room,
            tells: true,
            accepted: Count::new(),
            calls: Calls::new(alloc, failing)?,
            faults: Count::new(),
        })
    }

    /// How many links are still to come.
    pub fn coming(&self) -> usize
        ensures { result ≡ length self.now.coming }
    {
        self.coming.len()
    }

    /// The links that were given back and found room, in order.
    pub fn returned(&self) -> &[L]
        ensures { result.now ≡ self.now.kept }
    {
        &self.kept
    }
}

impl<L: Link + Drop + Send> Accepter for ListAccepter<L> {
    type Link = L;

    ghost use Rattle.std.specs.Prelude.{Some};
    ghost use Rattle.ots_memory.specs.ListAccepterTold.{returned_of};

    ghost coming = { λ s. Some s.coming };

    ghost returned = { λ s. returned_of s };

    ghost accepted = { λ s. s.accepted };

    ghost faults = { λ s. s.faults };

    fn listen(&mut self, _port: u16) -> Result<(), Failed>
        ensures coming { ◌≡◌ {A = Option (List L)} (Some self.new.coming) (Some self.old.coming) }
        ensures returned { returned_of self.new ≡ returned_of self.old }
        ensures accepted { self.new.accepted ≡ self.old.accepted }
        ensures cause { HasCause self.old.faults self.new.faults result }
        ensures failed { is_err result ≡ is_next_listed self.old.calls }
        ensures calls { self.new.calls ≡ after_call self.old.calls }
        ensures faults { self.new.faults ≡ faults_after self.old.faults result }
        ensures kept { self.new.kept ≡ self.old.kept }
        ensures room { self.new.room ≡ self.old.room }
        ensures tells { self.new.tells ≡ self.old.tells }
    {
        if self.calls.count() {
            self.faults.rise();
            return Err(Failed);
        }
        Ok(())
    }

    fn accept(&mut self) -> Result<Option<L>, Failed>
        ensures accepts { Accepts (Some self.old.coming) (Some self.new.coming) result }
        ensures fresh { IfAccepted result (λ link. IsFresh (L.told link) (L.faults link)) }
        ensures returned { returned_of self.new ≡ returned_of self.old }
        ensures accepted { self.new.accepted ≡ accepted_after self.old.accepted result }
        ensures cause { HasCause self.old.faults self.new.faults result }
        ensures failed { is_err result ≡ is_next_listed self.old.calls }
        ensures calls { self.new.calls ≡ after_call self.old.calls }
        ensures faults { self.new.faults ≡ faults_after self.old.faults result }
        ensures kept { self.new.kept ≡ self.old.kept }
        ensures room { self.new.room ≡ self.old.room }
        ensures tells { self.new.tells ≡ self.old.tells }
    {
        if self.calls.count() {
            self.faults.rise();
            return Err(Failed);
        }
        match self.coming.pop_front() {
            Some(link) => {
                self.accepted.rise();
                Ok(Some(link))
            }
            None => Ok(None),
        }
    }

    fn give_back(&mut self, link: L)
        ensures returned { GivesBack (returned_of self.old) link (returned_of self.new) }
        ensures coming { ◌≡◌ {A = Option (List L)} (Some self.new.coming) (Some self.old.coming) }
        ensures accepted { self.new.accepted ≡ self.old.accepted }
        ensures faults { self.new.faults ≡ self.old.faults }
        ensures kept { self.new.kept ≡ (if nat_lt 0 self.old.room then self.old.kept ++ link ∷ [] else self.old.kept) }
        ensures room { self.new.room ≡ self.old.room - 1 }
        ensures tells { self.new.tells ≡ (self.old.tells && nat_lt 0 self.old.room) }
        ensures calls { self.new.calls ≡ self.old.calls }
    {
        if self.room == 0 {
            self.tells = false;
            return;
        }
        self.kept.push(link).unwrap();
        self.room -= 1;
    }

    fn accepted(&self) -> u64
        ensures { result ≡ self.now.accepted }
    {
        self.accepted.value()
    }
}
