//! Whether a record may follow those before it.
ghost use Rattle.std.specs.Prelude.{◌≡◌, ◌≤◌, ◌<◌, ◌+◌, ◌-◌, ◌^◌, ◌++◌, ◌∷◌, [], List, length, true, false};
ghost use Rattle.std.specs.List.{AllByRecursion};
ghost use Rattle.ots_store.specs.Records.{Record, IsRecord};
ghost use Rattle.ots_store.specs.Forms.{IsForm};
ghost use Rattle.ots_store.specs.Order.{HasSpan, tips_of, records_of, covered_of, commits_of, Follows};
ghost use Rattle.ots_store.specs.Ranges.{Orderly, TipsRiseFrom};
ghost use Rattle.ots_store.specs.Progress.{Passed, IsProgress};

use crate::Tip;
use crate::form::{Form, Span};
use crate::tips::{has_tip, has_tip_in, pass_group, reaches_past};
use ots_journal::Entry;

/// What is known of the records before one. Their tips are some in a list, and then those of a
/// group of entries.
#[derive(Clone, Copy)]
pub struct Progress {
    pub commits: u64,
    pub covered: u64,
    /// The tips among the first `group` entries of the group end by what is covered.
    pub group: usize,
}

/// Whether a record of this form may follow. If so, it is counted among those before.
pub fn may_follow(form: &Form, tips: &[Tip], group: &[Entry], progress: &mut Progress) -> bool
    requires passed { Passed group.now progress.old }
    requires each { AllByRecursion IsRecord group.now }
    requires few { progress.old.commits < 2 ^ 63 }
    ensures passed { Passed group.now progress.new }
    ensures few { progress.new.commits ≤ progress.old.commits + 1 }
    ensures yes { result ≡ true → (before : List Record) (r : Record) → Orderly before
        → IsProgress before tips.now group.now progress.old → IsForm form.now r → Follows before r }
    ensures commits { result ≡ true → (before : List Record) (r : Record)
        → IsProgress before tips.now group.now progress.old → IsForm form.now r
        → progress.new.commits ≡ length (commits_of (before ++ r ∷ [])) }
    ensures covered { result ≡ true → (before : List Record) (r : Record) → Orderly before
        → IsProgress before tips.now group.now progress.old → IsForm form.now r
        → progress.new.covered ≡ covered_of (before ++ r ∷ []) }
    ensures no { result ≡ false → (before : List Record) (r : Record) → Orderly before
        → IsProgress before tips.now group.now progress.old → IsForm form.now r → Follows before r → ⊥ }
{
    match form {
        Form::Commit => {
            progress.commits += 1;
            true
        }
        Form::Tip(span) => is_next_tip(span, progress),
        Form::Anchor(span) => pass_anchor(span, tips, group, progress),
    }
}

/// Whether a tip begins with the first commitment that is not covered, and runs to the last one.
fn is_next_tip(span: &Span, progress: &Progress) -> bool
    ensures yes { result ≡ true → (span.now.first ≡ progress.now.covered) × (1 ≤ span.now.count)
        × (span.now.first + span.now.count ≡ progress.now.commits) }
    ensures no { result ≡ false → span.now.first ≡ progress.now.covered → 1 ≤ span.now.count
        → span.now.first + span.now.count ≡ progress.now.commits → ⊥ }
{
    span.first == progress.covered
        && span.count >= 1
        && span.first <= progress.commits
        && span.count == progress.commits - span.first
}

/// Whether an anchor is of one of the tips and reaches past what is covered. If so, that is covered.
fn pass_anchor(span: &Span, tips: &[Tip], group: &[Entry], progress: &mut Progress) -> bool
    requires passed { Passed group.now progress.old }
    requires each { AllByRecursion IsRecord group.now }
    ensures passed { Passed group.now progress.new }
    ensures commits { progress.new.commits ≡ progress.old.commits }
    ensures tip { result ≡ true → HasSpan span.now.first span.now.count (tips.now ++ tips_of (records_of group.now)) }
    ensures past { result ≡ true → progress.old.covered < span.now.first + span.now.count }
    ensures covered { result ≡ true → span.now.first + span.now.count < 2 ^ 64
        → progress.new.covered ≡ span.now.first + span.now.count }
    ensures no { result ≡ false → TipsRiseFrom 0 0 tips.now
        → HasSpan span.now.first span.now.count (tips.now ++ tips_of (records_of group.now))
        → progress.old.covered < span.now.first + span.now.count → ⊥ }
{
    if !reaches_past(span.first, span.count, progress.covered) {
        return false;
    }
    progress.group = pass_group(group, progress.group, progress.covered);
    if has_tip(tips, span) || has_tip_in(&group[progress.group..], span) {
        progress.covered = span.first.saturating_add(span.count);
        return true;
    }
    false
}
