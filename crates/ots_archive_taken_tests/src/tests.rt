use ots_archive_counts::{AddressCounts, counts};
use ots_archive_taken::{Taken, taken_by};
use ots_attest::{Attestation, Uri};
use ots_memory::BytesSource;
use ots_ops::{Digest, HashOp};
use ots_replies::{Replies, read_replies};
use ots_tree::{Detached, Shape, Token, Tree, beside, is_sound, single};
use std::alloc::Global;
use std::process::Abort;
use std::test::Fail;

/// The height of the block in the first public proof of OpenTimestamps, that of its hello-world.txt.
const HEIGHT: u64 = 358_391;

/// A reply with that block's attestation to each of two requests to alice, one to carol that is no tree, and
/// none from bob.
const SHEET: &str = "\
    get http://alice.example 0303030303030303030303030303030303030303030303030303030303030303 200 \
    000588960d73d7190103f7ef15\n\
    post http://alice.example 0202020202020202020202020202020202020202020202020202020202020202 200 \
    000588960d73d7190103f7ef15\n\
    post http://carol.example 0202020202020202020202020202020202020202020202020202020202020202 200 00\n\
    post https://bob.example:8443 0202020202020202020202020202020202020202020202020202020202020202 404 -\n\
    sum 4 328e65c2646832ee4b390acf40759c0bbc9aa352e15f149eb7c60c7f59bbd218\n";

/// The replies of the sheet.
fn replies(rt: &impl Abort, alloc: Global) -> Result<Replies, Fail> {
    let mut source = BytesSource::new(alloc, SHEET.as_bytes(), &[], &[])?;
    Ok(read_replies(alloc, &mut source).expect(rt, "a sheet of replies"))
}

/// A pending attestation for this URI.
fn waiting(rt: &impl Abort, alloc: Global, uri: &str) -> Result<Tree, Fail> {
    let uri = Uri::new(alloc, uri).expect(rt, "a URI");
    Ok(single(alloc, &[], Attestation::Pending(uri))?)
}

/// A proof of a digest that repeats this byte.
fn proof_with(byte: u8, tree: Tree) -> Option<Detached> {
    let shape = Shape {
        length: 32,
        depth: 0,
    };
    if !is_sound(&tree, shape) {
        return None;
    }
    Some(Detached {
        hash: HashOp::Sha256,
        digest: Digest::new(&[byte; 32]).unwrap(),
        tree,
    })
}

/// A proof of such a digest that waits for this URI.
fn proof_for(rt: &impl Abort, alloc: Global, byte: u8, uri: &str) -> Result<Detached, Fail> {
    Ok(proof_with(byte, waiting(rt, alloc, uri)?).expect(rt, "a sound tree"))
}

/// The draft of the digest that was sent to all three.
fn draft(rt: &impl Abort, alloc: Global) -> Result<Detached, Fail> {
    let alice = waiting(rt, alloc, "post:http://alice.example")?;
    let bob = waiting(rt, alloc, "post:https://bob.example:8443")?;
    let carol = waiting(rt, alloc, "post:http://carol.example")?;
    let tree = beside(beside(alice, bob)?, carol)?;
    Ok(proof_with(2, tree).expect(rt, "a sound tree"))
}

/// How many of the tokens there are, where the first is the attestation of the block.
fn tokens_from_block(proof: &Detached) -> Option<usize> {
    let tokens = proof.tree.tokens();
    match tokens.first() {
        Some(Token::Attestation(Attestation::Bitcoin(HEIGHT))) => Some(tokens.len()),
        _ => None,
    }
}

/// The counts of a calendar as text.
fn told(counts: AddressCounts<'_>) -> (&[u8], u64, u64, u64) {
    let AddressCounts { address, counts } = counts;
    (address, counts.ok, counts.no, counts.bad)
}

#[test]
fn one_good_reply_stamps_a_draft(rt: HostRuntime) -> Result<(), Fail> {
    let alloc = rt.alloc();
    match taken_by(alloc, &draft(&rt, alloc)?, &replies(&rt, alloc)?, 1)? {
        Taken::Stamped { proof, complete } => {
            assert!(rt; complete);
            assert_eq!(rt; tokens_from_block(&proof), Some(1));
            Ok(())
        }
        _ => Err(Fail::from("no stamp")),
    }
}

#[test]
fn one_good_reply_is_too_few_where_two_are_wanted(rt: HostRuntime) -> Result<(), Fail> {
    let alloc = rt.alloc();
    match taken_by(alloc, &draft(&rt, alloc)?, &replies(&rt, alloc)?, 2)? {
        Taken::TooFew { got } => {
            assert_eq!(rt; got, 1);
            Ok(())
        }
        _ => Err(Fail::from("not too few")),
    }
}

#[test]
fn a_good_reply_completes_a_proof(rt: HostRuntime) -> Result<(), Fail> {
    let alloc = rt.alloc();
    let proof = proof_for(&rt, alloc, 3, "http://alice.example")?;
    match taken_by(alloc, &proof, &replies(&rt, alloc)?, 1)? {
        Taken::Upgraded { proof, complete } => {
            assert!(rt; complete);
            // A fork, the pending attestation and that of the block.
            assert_eq!(rt; proof.tree.tokens().len(), 3);
            Ok(())
        }
        _ => Err(Fail::from("no upgrade")),
    }
}

#[test]
fn a_proof_that_has_no_reply_is_the_same(rt: HostRuntime) -> Result<(), Fail> {
    let alloc = rt.alloc();
    let proof = proof_for(&rt, alloc, 2, "http://alice.example")?;
    match taken_by(alloc, &proof, &replies(&rt, alloc)?, 1)? {
        Taken::Same { complete } => {
            assert!(rt; !complete);
            Ok(())
        }
        _ => Err(Fail::from("not the same")),
    }
}

#[test]
fn what_came_is_counted_by_calendar(rt: HostRuntime) -> Result<(), Fail> {
    let alloc = rt.alloc();
    let replies = replies(&rt, alloc)?;
    let list = counts(alloc, &replies)?;
    assert_eq!(rt; list.len(), 3);
    let alice: &[u8] = b"http://alice.example";
    let carol: &[u8] = b"http://carol.example";
    let bob: &[u8] = b"https://bob.example:8443";
    assert_eq!(rt; list.get(0).copied().map(told), Some((alice, 2, 0, 0)));
    assert_eq!(rt; list.get(1).copied().map(told), Some((carol, 0, 0, 1)));
    assert_eq!(rt; list.get(2).copied().map(told), Some((bob, 0, 1, 0)));
    Ok(())
}
