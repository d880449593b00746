//! What findings are made from.
use deny_cfg::bans::cfg::ValidConfig;
use deny_krates::Krates;
use deny_spans::KrateSpans;
use deny_spec::Package;

/// A configuration and a graph, with what was seen of manifests and of packages.
#[derive(Drop)]
pub struct DiagContext<'c> {
    pub cfg: &'c ValidConfig,
    pub krates: &'c Krates,
    pub spans: &'c KrateSpans<'c>,
    /// The packages by the places of their crates; none without a build configuration.
    pub packages: &'c [Package],
}
