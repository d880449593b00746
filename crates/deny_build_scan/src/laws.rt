ghost use Rattle.deny_spec.specs.Building.{Building};
ghost use Rattle.deny_spec.specs.Graph.{Graph};
ghost use Rattle.deny_build_scan.specs.OneSight.{HasOneSight};

/// On a disk that tells its files, the policy, the graph, cargo's home, the entries for what was
/// not read, and how that failed determine what is seen of packages.
pub fn one_sight()
    ensures { (b : Building) (g : Graph) → HasOneSight b g }
{}
