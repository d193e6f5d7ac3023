//! Laws of requests and replies.
ghost use Rattle.std.specs.Prelude.{◌≡◌, ◌≢◌, ℕ, List, Result, Err};
ghost use Rattle.ots_http.specs.declared.request.Request.{Request};
ghost use Rattle.ots_http.specs.declared.request.RequestError.{RequestError};
ghost use Rattle.ots_http.specs.declared.request.RequestError.TheVariants.{LinkFault};
ghost use Rattle.ots_http.specs.RequestRead.{IsRequestAnswer};
ghost use Rattle.ots_http.specs.ReplyTable.{ReplyOutcome, IsOutcome};

/// An input has one answer, the fault of a link aside. So each answer of `read_request` comes
/// exactly where the table says.
pub fn one_request_answer()
    ensures { (input : List ℕ) (a b : Result Request RequestError) → IsRequestAnswer input a → IsRequestAnswer input b
        → a ≢ Err LinkFault → b ≢ Err LinkFault → a ≡ b }
{}

/// An input has one outcome. So each answer of `read_reply` comes exactly where the table says, a
/// fault of the link and want of memory aside.
pub fn one_reply_outcome()
    ensures { (input : List ℕ) (a b : ReplyOutcome) → IsOutcome input a → IsOutcome input b → a ≡ b }
{}
