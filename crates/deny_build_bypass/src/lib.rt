//! What a policy says of a crate's build script and packaged files before any file is read: whether
//! the crate is checked, which bypass matches it, and what the bypass lets pass.
//!
//! # Choices
//!
//! The allowed path of a file is found by an index of the allowed paths by their components, which is made once for
//! each package; candidates are compared by their components anyway, so that nothing has to be proved of equal texts in
//! the index. A crate is compared with each bypass, and a file of which globs decide is reported by going through all
//! globs; such lists are short, and no index of them is kept.
#![tactic(auto)]

mod bypass;
mod checked;
mod paths;
mod required;
mod right;
mod scripts;

pub use bypass::{used, wanted_sum};
pub use checked::{Checking, asks_script, is_checked};
pub use paths::Allowed;
pub use required::{has_required_enabled, required_enabled, required_unknown};
pub use right::{has_sum, is_script_denied, is_script_right, is_walked, passes_by_script};
pub use scripts::{is_script_ok, script_of};
