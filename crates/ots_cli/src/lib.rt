//! The client `ots`: what its words, the shelf and the sink make it do, proved, so that the
//! program only makes the real objects and calls it.
//!
//! [`run_client`] reads the words and calls the command that they ask for. The law [`one_answer`]
//! says that words, names, nonces and the outcomes of conversations determine how it ends,
//! [`one_hearing`] that the replies determine these outcomes, and [`one_run`] joins the two; [`a_run`]
//! shows that what it supposes of the outside can be met.
//!
//! | crate | commands |
//! |---|---|
//! | `ots_rewriting` | `info`, `canon`, `prune`, `merge` |
//! | `ots_checking` | `verify`, `chain`, `sample` |
//! | `ots_stamping` | `stamp` |
//! | `ots_completing` | `upgrade` |
//! | `ots_client_endings` | what they share: how a command ends |
#![tactic(auto)]

mod laws;
mod run;

pub use laws::{a_run, one_answer, one_hearing, one_run};
pub use ots_client_text::Status;
pub use run::run_client;
