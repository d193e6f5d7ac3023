//! Which entries are records, told without taking memory.
ghost use Rattle.std.specs.Prelude.{◌≡◌, ◌≤◌, ◌<◌, ◌++◌, ◌^◌, ℕ, List, length, drop, true, false, IfSome, IfNone};
ghost use Rattle.std.specs.Prelude.{MatchOption};
ghost use Rattle.std.specs.List.{AllByRecursion, flat_map};
ghost use Rattle.ots_merkle.specs.declared.branch.Side.{Side};
ghost use Rattle.ots_store.specs.declared.anchor.Anchor.{Anchor};
ghost use Rattle.ots_store.specs.Records.{number as number_at, part, after, step_bytes, branch_bytes, sized};
ghost use Rattle.ots_store.specs.Records.{anchor_payload, FitsAnchor, HasHash, record_of, IsRecord};
ghost use Rattle.ots_store.specs.Forms.{IsForm, AreSteps, IsBranch, IsAnchor};

use ots_base::MAX_MESSAGE;

/// The kinds of records.
pub const COMMIT: u8 = 1;

pub const TIP: u8 = 2;

pub const ANCHOR: u8 = 3;

/// The bytes of a tip's payload; a commitment has fewer.
pub const TIP_PAYLOAD: usize = 48;

/// Commitments from one index on.
#[derive(Clone, Copy)]
pub struct Span {
    pub first: u64,
    pub count: u64,
}

/// What the order of records needs of one.
#[derive(Clone, Copy)]
pub enum Form {
    Commit,
    Tip(Span),
    Anchor(Span),
}

/// The form of an entry; `None` where it spells no record.
pub fn form_of(kind: u8, payload: &[u8]) -> Option<Form>
    ensures { MatchOption result (IsRecord (record { kind = kind; payload = payload.now })
        → ⊥) (λ form. IsRecord (record { kind = kind; payload = payload.now })
        × IsForm form (record_of (record { kind = kind; payload = payload.now }))) }
{
    if kind == COMMIT {
        if payload.len() == 44 {
            return Some(Form::Commit);
        }
        return None;
    }
    if kind == TIP {
        if payload.len() == 48 {
            return Some(Form::Tip(span_at(payload)));
        }
        return None;
    }
    if kind == ANCHOR {
        if is_anchor(payload) {
            return Some(Form::Anchor(span_at(payload)));
        }
        return None;
    }
    None
}

/// The first index and the count, which a tip and an anchor begin with.
fn span_at(payload: &[u8]) -> Span
    requires { 16 ≤ length payload.now }
    ensures first { result.first ≡ number_at payload.now }
    ensures count { result.count ≡ number_at (drop 8 payload.now) }
{
    Span {
        first: number(payload),
        count: number(&payload[8..]),
    }
}

/// The number at the start.
pub fn number(bytes: &[u8]) -> u64
    requires { 8 ≤ length bytes.now }
    ensures { result ≡ number_at bytes.now }
{
    let [a, b, c, d, e, f, g, h, ..] = bytes else {
        return 0;
    };
    u64::from_be_bytes([*a, *b, *c, *d, *e, *f, *g, *h])
}

/// The bytes that lie sized at the start, and what lies after them.
pub fn split_part(bytes: &[u8]) -> Option<(&[u8], &[u8])>
    ensures whole { IfSome result (λ r. bytes.now ≡ sized r.0.now ++ r.1.now) }
    ensures part { IfSome result (λ r. r.0.now ≡ part bytes.now) }
    ensures after { IfSome result (λ r. r.1.now ≡ after bytes.now) }
    ensures none { IfNone result ((piece rest : List ℕ) → length piece < 2 ^ 16 → bytes.now ≡ sized piece ++ rest → ⊥) }
{
    let [high, low, rest @ ..] = bytes else {
        return None;
    };
    let size = u16::from_be_bytes([*high, *low]) as usize;
    if size > rest.len() {
        return None;
    }
    Some((&rest[..size], &rest[size..]))
}

/// Whether the bytes are `count` steps.
fn are_steps(bytes: &[u8], count: usize) -> bool
    ensures yes { result ≡ true → AreSteps count bytes.now }
    ensures no { result ≡ false → (branch : List (Side × List ℕ)) → length branch ≡ count
        → AllByRecursion HasHash branch → bytes.now ≡ flat_map step_bytes branch → ⊥ }
{
    if count == 0 {
        return bytes.is_empty();
    }
    if bytes.len() < 33 || bytes[0] > 1 {
        return false;
    }
    are_steps(&bytes[33..], count - 1)
}

/// Whether the bytes are a branch of at most 32 steps.
fn is_branch(bytes: &[u8]) -> bool
    ensures yes { result ≡ true → IsBranch bytes.now }
    ensures no { result ≡ false → (branch : List (Side × List ℕ)) → length branch ≤ 32 → AllByRecursion HasHash branch
        → bytes.now ≡ branch_bytes branch → ⊥ }
{
    let [count, steps @ ..] = bytes else {
        return false;
    };
    *count <= 32 && are_steps(steps, *count as usize)
}

/// Whether the bytes are an anchor's payload.
fn is_anchor(payload: &[u8]) -> bool
    ensures yes { result ≡ true → IsAnchor payload.now }
    ensures no { result ≡ false → (anchor : Anchor) → FitsAnchor anchor → payload.now ≡ anchor_payload anchor → ⊥ }
{
    if payload.len() < 56 || number(&payload[16..]) >= 1 << 63 {
        return false;
    }
    let Some((prefix, following)) = split_part(&payload[56..]) else {
        return false;
    };
    let Some((suffix, branch)) = split_part(following) else {
        return false;
    };
    prefix.len() + suffix.len() + 32 <= MAX_MESSAGE && is_branch(branch)
}
