ghost use Rattle.std.specs.Prelude.{◌≡◌};
ghost use Rattle.deny_cfg_entries.specs.Words.{faults_as, ReadsAs};
ghost use Rattle.deny_cfg_tables.specs.Highlight.{highlight_of, shows_lowest, shows_simplest};

use deny_toml::{DeserError, Deserialize, Value};
use std::alloc::Global;

/// The paths to the crates of a duplicate that are shown.
#[derive(Clone, Copy, PartialEq, Eq)]
pub enum GraphHighlight {
    /// The path with the fewest edges.
    SimplestPath,
    /// The path to the crate of the lowest version.
    LowestVersion,
    /// Both paths.
    All,
}

impl Default for GraphHighlight {
    ghost use Rattle.std.specs.Prelude.{◌≡◌};
    ghost use Rattle.deny_cfg_tables.specs.declared.bans.cfg.highlight.GraphHighlight.TheVariants.{All};

    ghost is_default = { λ highlight. highlight ≡ All };

    fn default() -> GraphHighlight {
        GraphHighlight::All
    }
}

impl GraphHighlight {
    /// Whether the path with the fewest edges is shown.
    pub fn simplest(self) -> bool
        ensures { result ≡ shows_simplest self }
    {
        matches!(self, GraphHighlight::SimplestPath | GraphHighlight::All)
    }

    /// Whether the path to the crate of the lowest version is shown.
    pub fn lowest_version(self) -> bool
        ensures { result ≡ shows_lowest self }
    {
        matches!(self, GraphHighlight::LowestVersion | GraphHighlight::All)
    }
}

impl Deserialize for GraphHighlight {
    ghost reads = { ReadsAs highlight_of };

    ghost faults_of = { faults_as highlight_of };

    fn deserialize(alloc: Global, value: &mut Value<'_>) -> Result<GraphHighlight, DeserError> {
        let Some(text) = value.as_str() else {
            return Err(DeserError::wrong_kind(alloc, value.span));
        };
        match highlight_of(text) {
            Some(highlight) => Ok(highlight),
            None => Err(DeserError::unreadable(alloc, value.span)),
        }
    }
}

#[tactic(auto, unfolding(crate::specs::Highlight::highlight_of))]
fn highlight_of(text: &str) -> Option<GraphHighlight>
    ensures { result ≡ highlight_of text.now }
{
    if text == "simplest-path" {
        Some(GraphHighlight::SimplestPath)
    } else if text == "lowest-version" {
        Some(GraphHighlight::LowestVersion)
    } else if text == "all" {
        Some(GraphHighlight::All)
    } else {
        None
    }
}
