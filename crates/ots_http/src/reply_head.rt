//! The head of a reply.

use crate::heads::Head;
use crate::line_ends::may_end;
use httparse::Status;
use httparse::spans::{HeaderSpan, ResponseSpans, parse_response};

impl Head for ResponseSpans {
    ghost use Rattle.httparse.specs.Grammar.{HasNoResponse};
    ghost use Rattle.ots_http.specs.Covered.{CoversReply};
    ghost use Rattle.ots_http.specs.Head.{HasNoReplyHead};

    ghost covers = { CoversReply };

    ghost none = { HasNoResponse };

    ghost outside = { HasNoReplyHead };

    fn parse(
        came: &[u8],
        before: usize,
        begun: bool,
        fields: &mut [HeaderSpan],
    ) -> httparse::Result<Self> {
        if !may_end(came, before, begun) {
            return Ok(Status::Partial);
        }
        parse_response(came, fields)
    }
}
