// What headers confirm of a proof, and the values of paths.
//
// | line | its answer |
// |---|---|
// | `verdict value OP.. \| BYTES` | what these operations make of a message of at most 4096 bytes |
// | `verdict of BYTES \| FILE \| TABLE \| TABLE` | that of a proof on a digest, by headers of Bitcoin and Litecoin |
// | `verdict pieces TABLE \| TABLE \| BYTES \| ..` | what a file in these pieces confirms |
// | `verdict by N TABLE \| TABLE \| BYTES` | the same in pieces of N bytes |
// | `verdict on BYTES \| TABLE \| TABLE \| BYTES` | the verdict on a digest of a file that comes in one piece |
// | `verdict cuts TABLE \| TABLE \| BYTES` | what each prefix comes to, whole, byte by byte, and as a file in memory |
// | `verdict source CUTS \| FAILS \| TABLE \| BYTES` | the same from a source that is cut so, where these reads fail |
// | `verdict room TABLE \| BYTES` | the memory that is reserved, before and after a piece, and the greatest |
//
// TABLE is a height and the BYTES of headers from there on, and `-` is none.
use crate::canons::file_of;
use crate::files::whole;
use crate::hashes::{say_digest, word_of};
use crate::names::Names;
use crate::ops::{ops_of, say_error};
use crate::readers::say_fault;
use crate::runs::Runs;
use crate::words::{bytes_of, counts_of, numbers_of, split_bar, split_number, split_word};
use ots_eval::{
    Chain, CheckError, Checked, Confirmation, SourceError, VERIFIER_BYTES, Verdict, Verifier,
    check_source, value, verdict,
};
use ots_headers::Headers;
use ots_io::{BytesSource, Source};
use ots_ops::Digest;
use ots_row_words::Said;
use std::alloc::Global;

/// The longest message.
const MOST: usize = 4096;

/// Answers a question about verdicts.
pub fn answer(names: &Names, text: &str, said: &mut Said) {
    let (word, rest) = split_word(text);
    match word {
        "value" => of_ops(names, rest, said),
        "of" => of_file(names, rest, said),
        "on" => on_digest(names, rest, said),
        "source" => from_source(names, rest, said),
        "room" => room(names, rest, said),
        _ => by_tables(names, word, rest, said),
    }
}

fn of_ops(names: &Names, text: &str, said: &mut Said) {
    let (ops, message) = split_bar(text);
    let message = bytes_of(names, message);
    if message.len() <= MOST {
        match value(names.allocator(), &ops_of(names, ops), &message) {
            Ok(value) => said.bytes(value.bytes()),
            Err(error) => say_error(error, said),
        }
    }
}

/// The table of a height and headers.
fn table_of(names: &Names, text: &str) -> Option<Headers> {
    let (first, headers) = split_number(text);
    let bytes = bytes_of(names, headers);
    match BytesSource::new(names.allocator(), &bytes, &[], &[]) {
        Ok(mut source) => headers_from(names.allocator(), first, &mut source),
        Err(_) => None,
    }
}

/// The headers that any source gives, from a height of at most 2^32 on.
fn headers_from<S: Source>(alloc: Global, first: u64, source: &mut S) -> Option<Headers> {
    Headers::read(alloc, first.min(4_294_967_296), source).ok()
}

fn of_file(names: &Names, text: &str, said: &mut Said) {
    let (target, rest) = split_bar(text);
    let (file, rest) = split_bar(rest);
    let (bitcoin, litecoin) = split_bar(rest);
    let litecoin = table_of(names, litecoin);
    if let Some(target) = Digest::new(&bytes_of(names, target))
        && let Some(proof) = file_of(names, file)
        && let Some(bitcoin) = table_of(names, bitcoin)
        && let Ok(verdict) = verdict(
            names.allocator(),
            &proof,
            &target,
            &bitcoin,
            litecoin.as_ref(),
        )
    {
        say_verdict(verdict, said);
    }
}

/// Says a verdict.
fn say_verdict(verdict: Verdict, said: &mut Said) {
    match verdict {
        Verdict::Yes {
            chain,
            height,
            time,
        } => say_confirmed(chain, height, time, said),
        Verdict::NoDigest => said.word("no digest"),
        Verdict::NoPath => said.word("no path"),
    }
}

/// Says which block confirms a digest.
fn say_confirmed(chain: Chain, height: u64, time: u32, said: &mut Said) {
    said.word(match chain {
        Chain::Bitcoin => "bitcoin",
        Chain::Litecoin => "litecoin",
    });
    said.number(height);
    said.number(u64::from(time));
}

/// Says what was checked, or why it is no proof.
fn say_found(found: Result<Checked, CheckError>, said: &mut Said) {
    match found {
        Ok(checked) => say_checked(&checked, said),
        Err(CheckError::TooBig) => said.word("too big"),
        Err(CheckError::BadProof(fault)) => say_fault(fault, said),
    }
}

fn say_checked(checked: &Checked, said: &mut Said) {
    said.word(word_of(checked.hash));
    say_digest(Some(checked.digest), said);
    match checked.best {
        Some(
            Confirmation {
                chain,
                height,
                time,
            },
        ) => say_confirmed(chain, height, time, said),
        None => said.word("none"),
    }
}

/// Answers by tables of headers that stand first.
fn by_tables(names: &Names, word: &str, text: &str, said: &mut Said) {
    let (size, tables) = match word {
        "by" => split_number(text),
        _ => (1, text),
    };
    let (bitcoin, rest) = split_bar(tables);
    let (litecoin, rest) = split_bar(rest);
    let litecoin = table_of(names, litecoin);
    if let Some(bitcoin) = table_of(names, bitcoin) {
        match word {
            "by" => say_by(
                names,
                &bitcoin,
                litecoin.as_ref(),
                size as usize,
                rest,
                said,
            ),
            "cuts" => cuts(names, &bitcoin, litecoin.as_ref(), rest, said),
            _ => pieces(names, &bitcoin, litecoin.as_ref(), rest, said),
        }
    }
}

fn pieces(
    names: &Names,
    bitcoin: &Headers,
    litecoin: Option<&Headers>,
    text: &str,
    said: &mut Said,
) {
    if let Ok(mut verifier) = Verifier::begin(names.allocator(), bitcoin, litecoin) {
        for part in text.split(" | ") {
            verifier.feed(&bytes_of(names, part));
        }
        say_found(verifier.finish(), said);
    }
}

fn say_by(
    names: &Names,
    bitcoin: &Headers,
    litecoin: Option<&Headers>,
    size: usize,
    text: &str,
    said: &mut Said,
) {
    let bytes = bytes_of(names, text);
    fed_by(names.allocator(), bitcoin, litecoin, &bytes, size, said);
}

/// Says what bytes come to in pieces of this many, the last one of fewer.
fn fed_by(
    alloc: Global,
    bitcoin: &Headers,
    litecoin: Option<&Headers>,
    bytes: &[u8],
    size: usize,
    said: &mut Said,
) {
    if let Ok(mut verifier) = Verifier::begin(alloc, bitcoin, litecoin) {
        for piece in bytes.chunks(size.max(1)) {
            verifier.feed(piece);
        }
        say_found(verifier.finish(), said);
    }
}

fn cuts(names: &Names, bitcoin: &Headers, litecoin: Option<&Headers>, text: &str, said: &mut Said) {
    let bytes = bytes_of(names, text);
    let mut runs = Runs::new(names.allocator());
    for end in 0..=bytes.len() {
        let mut each = Said::new(names.allocator());
        let prefix = bytes.get(..end).unwrap_or(&[]);
        fed_by(
            names.allocator(),
            bitcoin,
            litecoin,
            prefix,
            MOST,
            &mut each,
        );
        fed_by(names.allocator(), bitcoin, litecoin, prefix, 1, &mut each);
        whole(names.allocator(), prefix, &mut each);
        runs.add(each.words(), said);
    }
    runs.end(said);
}

fn on_digest(names: &Names, text: &str, said: &mut Said) {
    let (target, rest) = split_bar(text);
    let (bitcoin, rest) = split_bar(rest);
    let (litecoin, file) = split_bar(rest);
    let litecoin = table_of(names, litecoin);
    if let Some(target) = Digest::new(&bytes_of(names, target))
        && let Some(bitcoin) = table_of(names, bitcoin)
        && let Ok(mut verifier) = Verifier::begin(names.allocator(), &bitcoin, litecoin.as_ref())
    {
        verifier.feed(&bytes_of(names, file));
        if let Ok(checked) = verifier.finish() {
            say_verdict(checked.verdict(&target), said);
        }
    }
}

fn from_source(names: &Names, text: &str, said: &mut Said) {
    let (cuts, rest) = split_bar(text);
    let (failing, rest) = split_bar(rest);
    let (bitcoin, file) = split_bar(rest);
    let cuts = counts_of(names, cuts);
    let failing = numbers_of(names, failing);
    if let Some(bitcoin) = table_of(names, bitcoin)
        && let Ok(mut source) = BytesSource::new(
            names.allocator(),
            &bytes_of(names, file),
            &cuts,
            &failing,
        )
    {
        check_from(names.allocator(), &bitcoin, &mut source, said);
    }
}

/// Says what any source's whole input comes to.
fn check_from<S: Source>(alloc: Global, bitcoin: &Headers, source: &mut S, said: &mut Said) {
    if let Ok(verifier) = Verifier::begin(alloc, bitcoin, None) {
        match check_source(verifier, source) {
            Ok(checked) => say_checked(&checked, said),
            Err(SourceError::ReadFault) => said.word("read fault"),
            Err(SourceError::TooBig) => said.word("too big"),
            Err(SourceError::BadProof(fault)) => say_fault(fault, said),
        }
    }
}

fn room(names: &Names, text: &str, said: &mut Said) {
    let (bitcoin, piece) = split_bar(text);
    if let Some(bitcoin) = table_of(names, bitcoin)
        && let Ok(mut verifier) = Verifier::begin(names.allocator(), &bitcoin, None)
    {
        said.number(verifier.reserved());
        verifier.feed(&bytes_of(names, piece));
        said.number(verifier.reserved());
        said.count(VERIFIER_BYTES);
    }
}
