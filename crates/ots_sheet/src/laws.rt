//! Laws of requests and of sheets.
ghost use Rattle.std.specs.Prelude.{◌≡◌, ℕ, List};
ghost use Rattle.std.specs.Cmp.Lexicographic.{slice_cmp};
ghost use Rattle.std.specs.Ordering.{nat_cmp};
ghost use Rattle.ots_sheet.specs.Request.{IsRequest, RequestParts, request_line};
ghost use Rattle.ots_sheet.specs.Reply.{Answer};
ghost use Rattle.ots_sheet.specs.Order.{request_order};
ghost use Rattle.ots_sheet.specs.Sheet.{IsReplies, IsRequests, reply_sheet, request_sheet};

/// The order of valid requests is that of the bytes of their lines.
pub fn one_order()
    ensures { (first second : RequestParts) → IsRequest first → IsRequest second
        → request_order first second ≡ slice_cmp nat_cmp (request_line first) (request_line second) }
{}

/// A text is the request sheet of one list of requests at most.
pub fn one_request_sheet()
    ensures { (first second : List RequestParts) → IsRequests first → IsRequests second
        → request_sheet first ≡ request_sheet second → first ≡ second }
{}

/// A text is the reply sheet of one list of replies at most.
pub fn one_reply_sheet()
    ensures { (first second : List Answer) → IsReplies first → IsReplies second
        → reply_sheet first ≡ reply_sheet second → first ≡ second }
{}
