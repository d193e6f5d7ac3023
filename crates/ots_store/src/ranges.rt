//! The anchor that covers an index, found by its range.
ghost use Rattle.std.specs.Prelude.{◌≡◌, ◌≤◌, ◌<◌, ◌+◌, true, false, length, take, drop, find};
ghost use Rattle.std.specs.Option.{option_copied};
ghost use Rattle.std.specs.List.{AllByRecursion};
ghost use Rattle.ots_store.specs.Order.{anchor_end, covers};
ghost use Rattle.ots_store.specs.Ranges.{RisesFrom, EndsBy, BeginsAfter};

use crate::Anchor;

/// The first anchor that covers an index.
pub fn find_range(anchors: &[Anchor], i: u64) -> Option<&Anchor>
    requires { RisesFrom 0 anchors.now }
    ensures { option_copied result ≡ find (covers i) anchors.now }
{
    let place = first_after(anchors, i);
    if place < anchors.len() {
        Some(&anchors[place])
    } else {
        None
    }
}

/// Where the first anchor stands that ends after an index.
fn first_after(anchors: &[Anchor], i: u64) -> usize
    requires { RisesFrom 0 anchors.now }
    ensures within { result ≤ length anchors.now }
    ensures before { AllByRecursion (EndsBy i) (take result anchors.now) }
    ensures after { BeginsAfter i (drop result anchors.now) }
{
    let mut low = 0;
    let mut high = anchors.len();
    while low < high {
        let middle = low + (high - low) / 2;
        if ends_by(&anchors[middle], i) {
            low = middle + 1;
        } else {
            high = middle;
        }
    }
    low
}

/// Whether an anchor ends at an index or before it.
fn ends_by(anchor: &Anchor, i: u64) -> bool
    ensures yes { result ≡ true → anchor_end anchor.now ≤ i }
    ensures no { result ≡ false → i < anchor_end anchor.now }
{
    anchor.first <= i && anchor.count <= i - anchor.first
}
