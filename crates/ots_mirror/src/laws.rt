//! What the premise of a crash comes to.
ghost use Rattle.std.specs.Prelude.{◌≡◌, ◌<◌, ◌≤◌, ◌^◌, ℕ, List, length};
ghost use Rattle.ots_http.specs.ReplyTable.{IsOutcome, ReplyOutcome, good};
ghost use Rattle.ots_mirror_pages.specs.Round.{IsPrefix};
ghost use Rattle.ots_store.specs.Page.{page};
ghost use Rattle.ots_store.specs.Records.{Record};
ghost use Rattle.ots_mirror.specs.Honest.{IsHonestReply};

/// A reply with a page of a calendar's records is honest, also once the calendar has more of them.
pub fn calendars_replies_are_honest()
    ensures { (all earlier : List Record) (n : ℕ) (reply : List ℕ) → IsPrefix earlier all → n < 2 ^ 64
        → n ≤ length earlier → IsOutcome reply (good (page earlier n)) → IsHonestReply all reply }
{}

/// So is one without a body that is taken.
pub fn other_replies_are_honest()
    ensures { (all : List Record) (reply : List ℕ) (outcome : ReplyOutcome) → IsOutcome reply outcome
        → ((body : List ℕ) → outcome ≡ good body → ⊥) → IsHonestReply all reply }
{}
