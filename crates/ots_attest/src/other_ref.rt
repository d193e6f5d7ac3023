//! An attestation of a kind that is not known, whose payload stands elsewhere.
ghost use Rattle.std.specs.Prelude.{◌≤◌, length};
ghost use Rattle.ots_base.specs.declared.limits.TheConstants.{MAX_PAYLOAD};
ghost use Rattle.ots_attest.specs.Kind.{IsUnknown};

/// An attestation whose kind is neither Pending nor Bitcoin nor Litecoin, and whose payload stands
/// elsewhere, as in the bytes that it was read from.
#[derive(Clone, Copy)]
pub struct OtherRef<'a> {
    /// The eight bytes that name the kind.
    pub kind: [u8; 8],
    /// What stands after the kind, 0 to `MAX_PAYLOAD` bytes, 8192, kept unread.
    pub payload: &'a [u8],
    ghost unknown: { IsUnknown kind },
    ghost greatest: { length payload.now ≤ MAX_PAYLOAD },
}
