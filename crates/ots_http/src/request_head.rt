//! The head of a request.

use crate::heads::Head;
use crate::line_ends::may_end;
use httparse::Status;
use httparse::spans::{HeaderSpan, RequestSpans, parse_request};

impl Head for RequestSpans {
    ghost use Rattle.httparse.specs.Grammar.{HasNoRequest};
    ghost use Rattle.ots_http.specs.Covered.{CoversRequest};
    ghost use Rattle.ots_http.specs.Head.{HasNoRequestHead};

    ghost covers = { CoversRequest };

    ghost none = { HasNoRequest };

    ghost outside = { HasNoRequestHead };

    fn parse(
        came: &[u8],
        before: usize,
        begun: bool,
        fields: &mut [HeaderSpan],
    ) -> httparse::Result<Self> {
        if !may_end(came, before, begun) {
            return Ok(Status::Partial);
        }
        parse_request(came, fields)
    }
}
