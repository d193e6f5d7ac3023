//! Laws over an archive and the client: what an archive takes of carried replies is what the client makes of the same
//! answers. No code calls them.
#![tactic(auto)]

mod laws;

pub use laws::taken_as_upgraded;
