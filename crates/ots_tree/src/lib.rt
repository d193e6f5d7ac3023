//! Timestamp trees: the tokens of an OpenTimestamps proof in preorder, their spelling, and which
//! trees are sound for a message.
#![tactic(auto)]

mod builder;
mod detached;
mod laws;
mod length;
mod listing;
mod making;
mod path_messages;
mod pending;
mod shape;
mod sound;
mod spelling;
mod token;
mod token_ref;
mod tree;
mod walk;

pub use builder::TreeBuilder;
pub use detached::Detached;
pub use laws::{
    fronts, limits_of_detached, one_listing, one_spelling, one_token, one_tree,
    paths_of_made_trees, room_of_fronts, some_path, sound_made_trees,
};
pub use length::spelled_length;
pub use listing::listed;
pub use making::{single, under};
pub use path_messages::{PathMessages, result_of};
pub use pending::{PendingAt, pending_messages};
pub use shape::Shape;
pub use sound::is_sound;
pub use spelling::{WriteFault, spell_to};
pub use token::{Token, TokenAt, limits_of_token};
pub use token_ref::TokenRef;
pub use tree::{Tree, beside, from_tokens};
pub use walk::Walk;
