ghost use Rattle.deny_spans.specs.OneView.{HasOneView};

use deny_krates::Krates;

/// A disk that tells its files, the graph, the registries, the files that were there before and the entries
/// for what was not read determine what is seen of manifests.
pub fn one_view(krates: &Krates)
    ensures { HasOneView krates.now }
{
    krates.krates();
}
