//! Laws of calendar URLs and their lists.
ghost use Rattle.std.specs.Prelude.{◌≡◌, ℕ, List};
ghost use Rattle.ots_calendar_url.specs.declared.url.Scheme.{Scheme};
ghost use Rattle.ots_calendar_url.specs.CalendarUrl.{IsUrl, Url};
ghost use Rattle.ots_calendar_url.specs.UrlList.{IsBadUrl, IsListOf};

/// A text is a URL of one scheme at most.
pub fn one_scheme()
    ensures { (text : List ℕ) (first second : Scheme) → IsUrl text first → IsUrl text second → first ≡ second }
{}

/// A list has one list of URLs at most, one bad place at most, and never both. So `read_urls` answers
/// its URLs and `BadAddress` each exactly where it should, want of memory aside.
pub fn one_list_of_urls()
    ensures given { (list : List ℕ) (first second : List Url) → IsListOf list first → IsListOf list second
        → first ≡ second }
    ensures refused { (list : List ℕ) (place other : ℕ) → IsBadUrl list place → IsBadUrl list other
        → place ≡ other }
    ensures never_both { (list : List ℕ) (urls : List Url) (place : ℕ) → IsListOf list urls
        → IsBadUrl list place → ⊥ }
{}
