//! What the paths of a timestamp proof make of its digest, and the verdict on a file by the headers
//! of blocks.
//!
//! Operations and attestations are those of the reference library python-opentimestamps
//! (`opentimestamps/core/op.py` and `notary.py`).
#![tactic(auto)]

mod best;
mod confirming;
mod laws;
mod values;
mod verdicts;
mod walk;

pub use best::{Best, Found};
pub use confirming::verdict;
pub use laws::{one_verdict, some_verdict};
pub use values::value;
pub use verdicts::{Chain, Confirmation, Verdict};
