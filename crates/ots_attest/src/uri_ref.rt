//! The URI of a pending attestation, whose text stands elsewhere.
ghost use Rattle.std.specs.Prelude.{◌≡◌, ◌≤◌, length, true, Ok, Err, IfOk, IfErr};
ghost use Rattle.std.specs.List.{list_all};
ghost use Rattle.ots_base.specs.declared.limits.TheConstants.{MAX_URI};
ghost use Rattle.ots_attest.specs.Uri.{is_uri_byte, IsUri};
ghost use Rattle.ots_attest.specs.NewUri.{new_uri};

use crate::uri::{Uri, UriError};
use ots_base::OutOfMemory;
use std::alloc::Global;

/// A URI of a pending attestation whose text stands elsewhere, as in the bytes that it was read
/// from: 0 to `MAX_URI` bytes, 1000, each of them allowed.
#[derive(Clone, Copy)]
pub struct UriRef<'a> {
    /// The text, 0 to 1000 bytes.
    pub text: &'a str,
    ghost greatest: { length text.now ≤ MAX_URI },
    ghost each: { list_all is_uri_byte text.now ≡ true },
}

impl<'a> UriRef<'a> {
    /// The URI of this text, or the refusal of `Uri::check`. It takes no memory.
    pub fn new(text: &'a str) -> Result<UriRef<'a>, UriError>
        ensures ok { IfOk result (λ uri. new_uri text.now ≡ Ok uri.text.now) }
        ensures same { IfOk result (λ uri. uri.text.now ≡ text.now) }
        ensures err { IfErr result (λ e. new_uri text.now ≡ Err e) }
    {
        match Uri::check(text.as_bytes()) {
            Ok(()) => Ok(UriRef { text }),
            Err(e) => Err(e),
        }
    }

    /// The text, 0 to 1000 bytes.
    pub fn text(self) -> &'a str
        ensures text { result.now ≡ self.entry.text.now }
        ensures limits { IsUri self.entry.text.now }
    {
        self.text
    }

    /// The URI of this text, in memory of `alloc`, which it keeps.
    pub fn to_owned(self, alloc: Global) -> Result<Uri, OutOfMemory>
        ensures { IfOk result (λ owned. owned ≡ self.entry.text.now) }
    {
        Uri::copy_of(alloc, self.text())
    }
}
