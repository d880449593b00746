//! What findings are made from, and the parts of a message: crates, sentences, labels; and what finds entries
//! of the policy and of the workspace by their spans.
#![tactic(auto)]

mod by_span;
mod context;
mod parts;

pub use by_span::{BySpan, HasSpan};
pub use context::DiagContext;
pub use parts::{
    Labels, crate_message, lone_label, not_built, of_crate, plainly, primary, secondary,
};
