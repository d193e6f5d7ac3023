//! Where the head of a message may have ended: at the end of a line.
ghost use Rattle.std.specs.Prelude.{◌≡◌, ◌<◌, ◌≤◌, ◌⊎◌, false, length, drop};
ghost use Rattle.ots_http.specs.LineEnds.{IsBlank, HasNoLineFeed};

/// Whether a byte came that is none of an empty line, in the new bytes or before them.
pub(crate) fn has_begun(before: bool, new: &[u8]) -> bool
    ensures { result ≡ false → (before ≡ false) × IsBlank new.now }
{
    before || new.iter().any(|byte| *byte != b'\r' && *byte != b'\n')
}

/// Whether a head may end in what came, of which all but the first `before` bytes are new. It does not
/// where these end no line, or nothing but empty lines came: so a head that comes byte by byte is parsed
/// once a line. The first piece is parsed at all events, so that bytes of another protocol are refused at
/// once.
pub(crate) fn may_end(came: &[u8], before: usize, begun: bool) -> bool
    requires { before ≤ length came.now }
    ensures none { result ≡ false → (begun ≡ false) ⊎ HasNoLineFeed (drop before came.now) }
    ensures later { result ≡ false → 0 < before }
{
    if before == 0 || !begun {
        return before == 0;
    }
    ends_line(&came[before..])
}

/// Whether a line ends in these bytes.
fn ends_line(bytes: &[u8]) -> bool
    ensures { result ≡ false → HasNoLineFeed bytes.now }
{
    bytes.iter().any(|byte| *byte == b'\n')
}
