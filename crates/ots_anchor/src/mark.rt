//! The first root in some bytes.
ghost use Rattle.std.specs.Prelude.{◌≡◌, ℕ, false, length};
ghost use Rattle.memchr.specs.Find.{FindsNeedle, OccursAt};
ghost use Rattle.ots_anchor.specs.Mark.{IsMark, better};
ghost use Rattle.ots_anchor.specs.Standing.{IsStanding};

use memchr::memmem::Finder;

/// Where a root stands, and which one of several.
#[derive(Clone, Copy)]
pub(crate) struct Mark {
    /// The index of the root, the last one of those that are the same.
    pub which: usize,
    /// Its first byte.
    pub place: usize,
}

/// The first place at which a root stands in these bytes, and which root that is. `standing` says
/// which roots are worth looking for: the others stand nowhere in these bytes.
pub(crate) fn first_mark(form: &[u8], finders: &[Finder], standing: &[bool]) -> Option<Mark>
    requires { IsStanding form.now finders.now standing.now }
    ensures { IsMark finders.now form.now result }
{
    let mut best = None;
    for (which, finder) in finders.iter().enumerate() {
        let place = find_if(standing[which], finder, form);
        best = better(best, which, place);
    }
    best
}

/// The first place of a root in these bytes, where it is worth looking for.
fn find_if(stands: bool, finder: &Finder, form: &[u8]) -> Option<usize>
    requires { stands ≡ false → (p : ℕ) → ¬ OccursAt form.now finder.now p }
    ensures { FindsNeedle form.now finder.now 0 result }
{
    if stands { finder.find(form) } else { None }
}

/// The mark of the roots up to one more, which stands first at this place, if it does.
fn better(best: Option<Mark>, which: usize, place: Option<usize>) -> Option<Mark>
    ensures { result ≡ better best which place }
{
    match place {
        None => best,
        Some(place) => match best {
            Some(mark) if mark.place < place => best,
            _ => Some(Mark { which, place }),
        },
    }
}
