//! What the definitions of a run say, beside what the call says.
ghost use Rattle.std.specs.Prelude.{◌≡◌, ◌++◌, List, Option, Some, ℕ};
ghost use Rattle.std.specs.List.{AllByRecursion};
ghost use Rattle.ots_address.specs.Address.{AddressParts};
ghost use Rattle.ots_address.specs.AddressList.{IsListOf};
ghost use Rattle.ots_base.specs.Cause.{Rose};
ghost use Rattle.ots_gateway_words.specs.Words.{Gathering};
ghost use Rattle.ots_gateway_words.specs.declared.status.GateStatus.TheVariants.{Done};
ghost use Rattle.ots_gateway_run.specs.Answered.{IsAnswered};
ghost use Rattle.ots_gateway_run.specs.Rounds.{Moment, Outside, seen};
ghost use Rattle.ots_gateway_run.specs.Run.{Ends};

use ots_outside::{Accepter, Dialer};

/// After a run that is done, whatever failed, each link that it gave back has one of four: it doesn't
/// tell its bytes; it counts a fault; it had no byte, and took none; or it took one whole reply, which
/// is that to its request in some round with these calendars.
pub fn done_runs_answer_each_link<A: Accepter, T: Dialer>()
    ensures { (o : Outside A A.Link T) (g : Gathering) (first last : ℕ) (old new : Moment A T)
        (taken now : Option (List ℕ)) (before added : List A.Link)
        → Ends o (Some g) (Rose first last) old new taken now Done
        → o.returned old.accepter ≡ Some before → o.returned new.accepter ≡ Some (before ++ added)
        → (calendars : List AddressParts) × IsListOf g.calendars calendars
        × AllByRecursion (λ link. IsAnswered o.told o.dial_faults calendars g.min (seen o link)) added }
{}
