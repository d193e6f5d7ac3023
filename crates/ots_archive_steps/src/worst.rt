//! Which of several statuses a run ends with.
ghost use Rattle.std.specs.Prelude.{◌≡◌};
ghost use Rattle.ots_archive_steps.specs.Worst.{rank, worse};

use ots_archive_text::ArchiveStatus;

/// The worse of the statuses of two proofs, the first where none is: a refusal of a proof is worst, then that too few
/// calendars timestamped it, that its name is there, and that it is pending.
pub fn worse(first: ArchiveStatus, next: ArchiveStatus) -> ArchiveStatus
    ensures { result ≡ worse first next }
{
    if rank(first) < rank(next) {
        next
    } else {
        first
    }
}

/// How bad a status of a proof is.
fn rank(status: ArchiveStatus) -> u8
    ensures { result ≡ rank status }
{
    match status {
        ArchiveStatus::Done => 0,
        ArchiveStatus::Pending => 1,
        ArchiveStatus::Exists => 2,
        ArchiveStatus::TooFew { .. } => 3,
        _ => 4,
    }
}
