// The links of a run, and what came of them.
ghost use Rattle.std.specs.Prelude.{Some, All, IfOk};
ghost use Rattle.ots_outside.specs.Link.{IsFresh};

use crate::on::{Coming, On};
use ots_base::OutOfMemory;
use ots_io::{Accepter, BytesLink, ListAccepter};
use std::alloc::Global;
use std::collections::VecDeque;

/// How many bytes a link takes: a tree of 10,000 with its head, and more.
const LINK_ROOM: usize = 16_384;

/// What was done with the links of a run.
#[derive(Drop)]
pub struct Links {
    pub accepted: u64,
    pub coming: usize,
    /// What each link has taken that was given back, in order.
    pub taken: Vec<Vec<u8>>,
}

/// Where the links come in.
pub fn accepter_of(alloc: Global, on: &On) -> Result<ListAccepter<BytesLink>, OutOfMemory> {
    let links = links_of(alloc, &on.links)?;
    ListAccepter::new(alloc, links, &on.failing.accepter)
}

/// The links, of which none was read or written yet.
fn links_of(alloc: Global, coming: &[Coming]) -> Result<VecDeque<BytesLink>, OutOfMemory>
    ensures { IfOk result (λ links. All (λ link. IsFresh (Some link.link) link.faults) links.items) }
{
    let mut links = VecDeque::new(alloc);
    for link in coming {
        links.push_back(new_link(alloc, link)?)?;
    }
    Ok(links)
}

/// A link that sends these bytes.
fn new_link(alloc: Global, link: &Coming) -> Result<BytesLink, OutOfMemory>
    ensures { IfOk result (λ link. IsFresh (Some link.link) link.faults) }
{
    BytesLink::new(alloc, &link.bytes, &[], LINK_ROOM, &link.failing)
}

/// What was done with the links.
pub fn links_after(
    alloc: Global,
    accepter: &ListAccepter<BytesLink>,
) -> Result<Links, OutOfMemory> {
    let mut taken = Vec::new(alloc);
    for link in accepter.returned() {
        taken.push(link.taken().to_vec(alloc)?)?;
    }
    Ok(Links {
        accepted: accepter.accepted(),
        coming: accepter.coming(),
        taken,
    })
}
