/// A call of the outside failed. Its object has counted the fault, so a caller that compares the
/// counts before and after a run knows whether any call failed.
#[derive(Clone, Copy, Debug, PartialEq, Eq)]
pub struct Failed;
