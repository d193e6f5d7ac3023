//! The words of replies.
ghost use Rattle.std.specs.Prelude.{◌≡◌, ◌≤◌, length};
ghost use Rattle.ots_http.specs.ReplyText.{phrase_of, refusal, status_of, words_of};

/// The words of a reply that is no tree. Each stands in one line of the table of statuses.
#[derive(Clone, Copy, Debug, PartialEq, Eq)]
pub enum Word {
    /// 400 `bad request`.
    BadRequest,
    /// 404 `not found`.
    NotFound,
    /// 404 `pending`.
    Pending,
    /// 405 `method not allowed`.
    MethodNotAllowed,
    /// 411 `length required`.
    LengthRequired,
    /// 413 `too large`.
    TooLarge,
    /// 500 `clock`.
    Clock,
    /// 503 `busy`.
    Busy,
    /// 503 `disk`.
    Disk,
    /// 503 `nonce`.
    Nonce,
    /// 503 `upstream`.
    Upstream,
    /// 507 `journal full`.
    JournalFull,
}

impl Word {
    /// The words for a request that is refused with this status: 400, 405, 411, 413, or 404, which stands
    /// for every other.
    pub fn of_refused(status: u16) -> Word
        ensures { result ≡ refusal status }
    {
        match status {
            400 => Word::BadRequest,
            405 => Word::MethodNotAllowed,
            411 => Word::LengthRequired,
            413 => Word::TooLarge,
            _ => Word::NotFound,
        }
    }

    /// The status with which the words stand.
    pub fn status(self) -> u16
        ensures { result ≡ status_of self }
    {
        match self {
            Word::BadRequest => 400,
            Word::NotFound | Word::Pending => 404,
            Word::MethodNotAllowed => 405,
            Word::LengthRequired => 411,
            Word::TooLarge => 413,
            Word::Clock => 500,
            Word::Busy | Word::Disk | Word::Nonce | Word::Upstream => 503,
            Word::JournalFull => 507,
        }
    }

    /// The phrase of the status with which the words stand.
    pub(crate) fn phrase(self) -> &'static str
        ensures phrase { result.now ≡ phrase_of self }
        ensures short { length (phrase_of self) ≤ 32 }
    {
        match self {
            Word::BadRequest => "Bad Request",
            Word::NotFound => "Not Found",
            Word::Pending => "Not Found",
            Word::MethodNotAllowed => "Method Not Allowed",
            Word::LengthRequired => "Length Required",
            Word::TooLarge => "Content Too Large",
            Word::Clock => "Internal Server Error",
            Word::Busy => "Service Unavailable",
            Word::Disk => "Service Unavailable",
            Word::Nonce => "Service Unavailable",
            Word::Upstream => "Service Unavailable",
            Word::JournalFull => "Insufficient Storage",
        }
    }

    /// The words.
    pub(crate) fn words(self) -> &'static str
        ensures words { result.now ≡ words_of self }
        ensures short { length (words_of self) ≤ 32 }
    {
        match self {
            Word::BadRequest => "bad request",
            Word::NotFound => "not found",
            Word::Pending => "pending",
            Word::MethodNotAllowed => "method not allowed",
            Word::LengthRequired => "length required",
            Word::TooLarge => "too large",
            Word::Clock => "clock",
            Word::Busy => "busy",
            Word::Disk => "disk",
            Word::Nonce => "nonce",
            Word::Upstream => "upstream",
            Word::JournalFull => "journal full",
        }
    }
}
