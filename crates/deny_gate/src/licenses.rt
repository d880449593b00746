//! The check of `[licenses]`.

pub use deny_gate_licenses::check;
