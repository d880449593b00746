//! What the build check asks of one file of a package: whether it is executable by its first bytes,
//! its checksum, and how its path is shown.
//!
//! # Choices
//!
//! A path from the root and one that is not lie in no common folder, so an empty home, or `.`, holds relative paths
//! alone. The rest below a folder begins at the next component and runs to the end as it is written: `/w//a` below `/w`
//! is `a`, `/w/.` is nothing, and a later `/./` stays.
//!
//! Whether a file is executable is read from a prefix of at most 256 bytes, and the contract is about the whole file: a
//! lemma says that such a prefix decides. Only a script whose first line does not end within 16 bytes needs more than
//! these.
//!
//! An empty part of a script's first line is a part, so `#!  /bin/bash` names the empty interpreter.
//!
//! A path that is written as its folder, a slash and a component is shown by its text, and parts are gathered of the
//! others alone: most files of a package have such a path.
#![tactic(auto)]

mod check_end;
mod checksum;
mod executable;
mod home;
mod parts;
mod prefix;
mod script;

pub use check_end::CheckEnd;
pub use checksum::{checksum_file, sha256_of_file, validate_checksum};
pub use deny_spec::{ExecutableKind, NativeKind};
pub use executable::check_is_executable;
pub use home::home_path;
