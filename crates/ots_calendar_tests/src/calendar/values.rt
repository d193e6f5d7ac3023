// Values of books, in hexadecimal, made by `interop/book_rows.py`.

/// The commitment of a round of 65,536 digests, each the 8 bytes of its number.
pub const FULL: &str =
    "6553f10075ab74781b1a85b079b347e3b888ebf1f196fc6335b888abf906924e8d2e31b21ee90cb6d749fb96";
