//! A tip sought among tips, and among the entries of a group.
ghost use Rattle.std.specs.Prelude.{◌≡◌, ◌≤◌, ◌<◌, ◌+◌, length, take, true, false};
ghost use Rattle.std.specs.List.{AllByRecursion};
ghost use Rattle.ots_store.specs.Records.{record_of, IsRecord};
ghost use Rattle.ots_store.specs.Order.{HasSpan, tip_in, tips_of, records_of};
ghost use Rattle.ots_store.specs.Progress.{TipEndsBy};
ghost use Rattle.ots_store.specs.Ranges.{TipsRiseFrom, Precedes};

use crate::Tip;
use crate::form::{Form, Span, form_of};
use ots_journal::Entry;

/// Whether `count` commitments from index `first` on end after index `covered`.
pub fn reaches_past(first: u64, count: u64, covered: u64) -> bool
    ensures yes { result ≡ true → covered < first + count }
    ensures no { result ≡ false → first + count ≤ covered }
{
    first > covered || count > covered - first
}

/// Passes the entries of which none is a tip that ends after what is covered.
pub fn pass_group(group: &[Entry], from: usize, covered: u64) -> usize
    requires there { from ≤ length group.now }
    requires each { AllByRecursion IsRecord group.now }
    ensures there { result ≤ length group.now }
    ensures passed { AllByRecursion (TipEndsBy covered) (tips_of (records_of (take from group.now)))
        → AllByRecursion (TipEndsBy covered) (tips_of (records_of (take result group.now))) }
{
    let mut place = from;
    while place < group.len() && ends_by(&group[place], covered) {
        place += 1;
    }
    place
}

/// Whether a record is no tip that ends after an index.
fn ends_by(entry: &Entry, covered: u64) -> bool
    ensures { result ≡ true → IsRecord entry.now → AllByRecursion (TipEndsBy covered) (tip_in (record_of entry.now)) }
{
    match form_of(entry.kind, entry.payload.items()) {
        Some(Form::Tip(span)) => !reaches_past(span.first, span.count, covered),
        _ => true,
    }
}

/// Whether one of the tips, which rise, has this first index and this count. It halves them.
pub fn has_tip(tips: &[Tip], span: &Span) -> bool
    ensures yes { result ≡ true → HasSpan span.now.first span.now.count tips.now }
    ensures no { result ≡ false → TipsRiseFrom 0 0 tips.now → HasSpan span.now.first span.now.count tips.now → ⊥ }
{
    let mut low = 0;
    let mut high = tips.len();
    while low < high {
        let middle = low + (high - low) / 2;
        let tip = &tips[middle];
        if is_of(tip, span) {
            return true;
        }
        if precedes(tip, span) {
            low = middle + 1;
        } else {
            high = middle;
        }
    }
    false
}

/// Whether a tip begins before this first index, or at it and has fewer commitments than this count.
fn precedes(tip: &Tip, span: &Span) -> bool
    ensures yes { result ≡ true → Precedes span.now.first span.now.count tip.now }
    ensures no { result ≡ false → Precedes span.now.first span.now.count tip.now → ⊥ }
{
    tip.first < span.first || (tip.first == span.first && tip.count < span.count)
}

/// Whether a tip has this first index and this count.
fn is_of(tip: &Tip, span: &Span) -> bool
    ensures yes { result ≡ true → (tip.now.first ≡ span.now.first) × (tip.now.count ≡ span.now.count) }
    ensures no { result ≡ false → tip.now.first ≡ span.now.first → tip.now.count ≡ span.now.count → ⊥ }
{
    tip.first == span.first && tip.count == span.count
}

/// Whether one of the entries is a tip with this first index and this count.
pub fn has_tip_in(group: &[Entry], span: &Span) -> bool
    requires { AllByRecursion IsRecord group.now }
    ensures yes { result ≡ true → HasSpan span.now.first span.now.count (tips_of (records_of group.now)) }
    ensures no { result ≡ false → HasSpan span.now.first span.now.count (tips_of (records_of group.now)) → ⊥ }
{
    for entry in group {
        if is_tip(entry, span) {
            return true;
        }
    }
    false
}

/// Whether a record is a tip with this first index and this count.
fn is_tip(entry: &Entry, span: &Span) -> bool
    ensures yes { result ≡ true → IsRecord entry.now → HasSpan span.now.first span.now.count
        (tip_in (record_of entry.now)) }
    ensures no { result ≡ false → IsRecord entry.now → HasSpan span.now.first span.now.count
        (tip_in (record_of entry.now)) → ⊥ }
{
    match form_of(entry.kind, entry.payload.items()) {
        Some(Form::Tip(tip)) => tip.first == span.first && tip.count == span.count,
        _ => false,
    }
}
