//! The trees that a sheet of replies gives a proof.
ghost use Rattle.std.specs.Prelude.{◌≡◌, ◌<◌, Some, length, IfOk};
ghost use Rattle.std.specs.List.{slice_get};
ghost use Rattle.std.specs.Option.{option_map};
ghost use Rattle.ots_archive_taken.specs.Given.{AreGoodTrees, AreTreesFor, IsTreeFor};
ghost use Rattle.ots_archive_taken.specs.inner.Giving.{IsRequestOf, IsTreeGiven, IsTreeOf, IsWhole};
ghost use Rattle.ots_pending.specs.Pairs.{AreAskable, PairAt};
ghost use Rattle.ots_reader.specs.OneAnswer.{IsShape};
ghost use Rattle.ots_sheet.specs.Reply.{reply_parts};
ghost use Rattle.ots_sheet.specs.Request.{request_parts};

use ots_asking::{Outcome, one_outcome_of_body, outcome_of_body};
use ots_base::OutOfMemory;
use ots_draft::{post_address, post_uris};
use ots_pending::Pairs;
use ots_replies::Replies;
use ots_sheet::{Kind, Reply, Request};
use ots_tree::{Shape, Tree};
use std::alloc::Global;

/// For each pair of a proof that is no draft the tree that the sheet gives, if it gives one. Each reply is
/// read once.
pub(crate) fn trees_got(
    alloc: Global,
    replies: &Replies,
    pairs: &Pairs,
) -> Result<Vec<Option<Tree>>, OutOfMemory>
    requires { AreAskable pairs.now }
    ensures { IfOk result (λ trees. AreTreesFor replies.now Kind.Get pairs.now trees.items) }
{
    let mut trees = Vec::with_capacity(alloc, pairs.len())?;
    for i in 0..pairs.len() {
        trees.push(tree_at(alloc, replies, Kind::Get, pairs, i)?)?;
    }
    Ok(trees)
}

/// The trees that the sheet gives for the pairs of a draft, in order. Each reply is read once.
pub(crate) fn trees_posted(
    alloc: Global,
    replies: &Replies,
    pairs: &Pairs,
) -> Result<Vec<Tree>, OutOfMemory>
    requires { AreAskable pairs.now }
    ensures { IfOk result (λ trees. AreGoodTrees replies.now Kind.Post pairs.now trees.items) }
{
    let mut trees = Vec::new(alloc);
    for i in 0..pairs.len() {
        if let Some(tree) = tree_at(alloc, replies, Kind::Post, pairs, i)? {
            trees.push(tree)?;
        }
    }
    Ok(trees)
}

/// The tree that is given for the pair at this place.
fn tree_at(
    alloc: Global,
    replies: &Replies,
    kind: Kind,
    pairs: &Pairs,
    i: usize,
) -> Result<Option<Tree>, OutOfMemory>
    requires askable { AreAskable pairs.now }
    requires place { i < length pairs.now }
    ensures { IfOk result (λ tree. (p : PairAt) → slice_get pairs.now i ≡ Some p
        → IsTreeFor replies.now kind p tree) }
{
    let depth = pairs.depth(i);
    let message = pairs.message(i).bytes();
    match request_for(kind, pairs.uri(i).text(), message) {
        Some(request) => tree_given(alloc, replies, &request, depth),
        None => Ok(None),
    }
}

/// What is asked for a URI and a message in this way, unless the URI names no URL.
fn request_for<'a>(kind: Kind, uri: &'a str, message: &'a [u8]) -> Option<Request<'a>>
    ensures { (p : PairAt) → p.pair ≡ record { uri = uri.now; message = message.now }
        → IsRequestOf kind p (option_map request_parts result) }
{
    post_uris();
    let url = match kind {
        Kind::Get => uri,
        Kind::Post => post_address(uri)?,
    };
    Some(Request {
        kind,
        url: url.as_bytes(),
        message,
    })
}

/// The tree that the reply to a request has as its body, to stand below the request's message and so
/// many operations.
fn tree_given(
    alloc: Global,
    replies: &Replies,
    request: &Request<'_>,
    depth: u32,
) -> Result<Option<Tree>, OutOfMemory>
    requires { IsShape (length request.now.message.now) depth }
    ensures { IfOk result (IsTreeGiven replies.now (request_parts request.now) depth) }
{
    let _good = replies.len();
    let shape = Shape {
        length: request.message.len() as u32,
        depth,
    };
    match replies.find(request) {
        Some(reply) => tree_of_reply(alloc, reply, shape),
        None => Ok(None),
    }
}

/// The tree that a reply has as its body, if it has one.
fn tree_of_reply(alloc: Global, reply: Reply<'_>, shape: Shape) -> Result<Option<Tree>, OutOfMemory>
    requires { IsShape shape.length shape.depth }
    ensures { IfOk result (IsTreeOf shape.length shape.depth (reply_parts reply.entry)) }
{
    match reply {
        Reply::Body(body) => whole_tree(alloc, body, shape),
        Reply::Status(_) | Reply::Nothing => Ok(None),
    }
}

/// The tree that a whole body is, if it is one.
fn whole_tree(alloc: Global, body: &[u8], shape: Shape) -> Result<Option<Tree>, OutOfMemory>
    requires { IsShape shape.length shape.depth }
    ensures { IfOk result (IsWhole shape.length shape.depth body.now) }
{
    one_outcome_of_body();
    match outcome_of_body(alloc, body, shape)? {
        Outcome::Tree(tree) => Ok(Some(tree)),
        _ => Ok(None),
    }
}
