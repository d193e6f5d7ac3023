//! Files of SHA-256 sums, as `sha256sum` of GNU coreutils writes them: a line each, of a digest and the name of a file.
#![tactic(auto)]

mod laws;
mod line;
mod names;
mod reading;
mod sums;

pub use laws::{one_list_of_sums, one_name};
pub use line::MAX_LINE;
pub use names::{is_escaped, put_escaped};
pub use reading::{MAX_LINES, SumsError, read_sums};
pub use sums::Sums;
