//! Examples that show that what laws suppose can be met. No code calls them.
#![tactic(auto)]

mod laws;

pub use laws::{a_cycle, a_hearing, a_proof_of_it, an_image_of_them};
