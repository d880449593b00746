//! The table `[licenses]`. A field has the name of its key, with `_` for `-`, where its comment names no other key.

mod config;
mod exception;
mod private;

pub use config::Config;
pub use exception::Exception;
