ghost use Rattle.deny_spdx.specs.Grammar.{IsExpression, IsRequirement};
ghost use Rattle.deny_spdx.specs.private.Bad.{IsAnswer};

use crate::error::SpdxError;
use crate::expression::Expression;
use crate::reader::Reader;
use crate::reading::read_tokens;
use crate::requirement::Requirement;
use crate::requirement_reader::RequirementReader;
use std::alloc::Global;

/// The expression that the text spells.
pub fn read_expression(alloc: Global, text: &str) -> Result<Expression, SpdxError>
    ensures { IsAnswer IsExpression text.now result }
{
    let reader = read_tokens(alloc, text, Reader::new(alloc))?;
    match reader.whole()? {
        Some(expression) => Ok(expression),
        None => Err(SpdxError::Bad(text.len())),
    }
}

/// The one requirement that the text spells.
pub fn read_requirement(alloc: Global, text: &str) -> Result<Requirement, SpdxError>
    ensures { IsAnswer IsRequirement text.now result }
{
    let reader = read_tokens(alloc, text, RequirementReader::Start)?;
    match reader.whole() {
        Some(requirement) => Ok(requirement),
        None => Err(SpdxError::Bad(text.len())),
    }
}
