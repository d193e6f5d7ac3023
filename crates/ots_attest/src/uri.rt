//! The URI of a pending attestation.
ghost use Rattle.std.specs.Prelude.{◌≡◌, IfOk, string_bytes};
ghost use Rattle.ots_base.specs.Memory.{UnlessOutOfMemory};
ghost use Rattle.ots_attest.specs.Uri.{is_uri_byte, IsUri};
ghost use Rattle.ots_attest.specs.NewUri.{first_bad, uri_check, new_uri};

use crate::uri_ref::UriRef;
use ots_base::{MAX_URI, OutOfMemory};
use std::alloc::Global;
use std::marker::Model;
use thiserror::Error;

/// The URI at which a pending timestamp is to be asked for: 0 to `MAX_URI` bytes, 1000, out of
/// letters, digits, `-`, `.`, `_`, `/` and `:`.
///
/// Contracts see the list of these bytes.
#[derive(Debug, Drop)]
pub struct Uri {
    // in a box, so that a token of a tree without a URI is small
    text: Box<String>,
}

impl Model for Uri {
    ghost use Rattle.std.specs.Prelude.{ℕ, List, string_bytes};
    ghost use Rattle.ots_attest.specs.Uri.{IsUri};

    ghost Value = { List ℕ };

    ghost view = { λ u. string_bytes u.text.value };

    ghost invariant = { λ u. IsUri (string_bytes u.text.value) };
}

/// Why bytes are no URI of a pending attestation.
#[derive(Clone, Copy, Debug, PartialEq, Eq, Error)]
pub enum UriError {
    /// The number of bytes, which is more than 1000.
    #[error("a URI of {0} bytes is longer than 1000")]
    TooLong(u64),
    /// The byte at this place, counted from 0, is not allowed. It is the first such byte.
    #[error("the byte at {0} is not allowed in a URI")]
    BadChar(usize),
    /// Memory ran out.
    #[error("out of memory")]
    OutOfMemory,
}

impl Uri {
    /// Whether the bytes are a URI of a pending attestation. `TooLong` with their number exactly for
    /// more than 1000 bytes, else `BadChar` exactly at the first byte that is not allowed. It takes
    /// no memory.
    pub fn check(bytes: &[u8]) -> Result<(), UriError>
        ensures { result ≡ uri_check bytes.now }
    {
        if bytes.len() > MAX_URI {
            return Err(UriError::TooLong(bytes.len() as u64));
        }
        match first_bad(bytes) {
            Some(place) => Err(UriError::BadChar(place)),
            None => Ok(()),
        }
    }

    /// The URI of this text, or the refusal of `check`, in whose place `OutOfMemory` never comes.
    pub fn new(alloc: Global, text: &str) -> Result<Uri, UriError>
        ensures value { UnlessOutOfMemory UriError.OutOfMemory result (new_uri text.now) }
        ensures short { result ≡ Err UriError.OutOfMemory → new_uri text.now ≡ Ok text.now }
    {
        match UriRef::new(text)?.to_owned(alloc) {
            Ok(uri) => Ok(uri),
            Err(_) => Err(UriError::OutOfMemory),
        }
    }

    /// The URI of this text, which is one, in memory of `alloc`.
    pub(crate) fn copy_of(alloc: Global, text: &str) -> Result<Uri, OutOfMemory>
        requires { IsUri text.now }
        ensures { IfOk result (λ uri. uri ≡ text.now) }
    {
        let text = String::from_str(alloc, text)?;
        Ok(Uri {
            text: Box::new(alloc, text)?,
        })
    }

    /// The text, 0 to 1000 bytes.
    pub fn text(&self) -> &str
        ensures text { result.now ≡ self.now }
        ensures limits { IsUri self.now }
    {
        self.text.as_str()
    }

    /// An equal URI.
    pub fn copy(&self) -> Result<Uri, OutOfMemory>
        ensures { IfOk result (λ copied. copied ≡ self.now) }
    {
        let text = self.text.clone()?;
        Ok(Uri { text })
    }
}

/// A letter, a digit, or one of `-`, `.`, `_`, `/` and `:`.
fn is_uri_byte(byte: u8) -> bool
    ensures { result ≡ is_uri_byte byte }
{
    byte.is_ascii_alphanumeric() || matches!(byte, b'-' | b'.' | b'_' | b'/' | b':')
}

/// The place of the first byte that is not allowed.
fn first_bad(bytes: &[u8]) -> Option<usize>
    ensures { result ≡ first_bad bytes.now }
{
    bytes.iter().position(|byte| !is_uri_byte(*byte))
}
