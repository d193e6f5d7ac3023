//! What a sample shows.
use ots_verdicts::Verdict;

/// What is told of a sample.
#[derive(Clone, Copy, Debug, PartialEq, Eq)]
pub struct Sample {
    /// How many paths the proof has, 1 to 100,000.
    pub paths: u32,
    /// How many bytes the file of the canonical proof has.
    pub length: u64,
    /// The SHA-256 of that file.
    pub digest: [u8; 32],
    /// The verdict of the canonical proof on its own digest.
    pub verdict: Verdict,
}
