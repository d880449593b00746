ghost use Rattle.std.specs.Prelude.{◌≡◌, IfOk};
ghost use Rattle.deny_spdx.specs.Reader.{start, settled, with_requirement, word_step, with_step};
ghost use Rattle.deny_spdx.specs.Reader.{open_step, and_step, or_step, close_step, step, whole};

use crate::expression::{Expression, Tree, any_of};
use crate::level::ParenLevel;
use crate::requirement::Requirement;
use crate::token::SpdxToken;
use crate::token_reader::TokenReader;
use deny_base_lists::{List, NoMemory, Text};
use std::alloc::Global;

/// The largest number of parentheses that may be open at an offset.
const NESTING: usize = 64;

/// The end of the tokens so far.
#[derive(Drop)]
pub enum Phase {
    /// An operator, an open parenthesis or no token: a requirement or `(` must come.
    Operand,
    /// A word: `WITH` may come, or any token that may follow a requirement.
    Named(Text),
    /// `WITH` after this word: an exception must come.
    Excepted(Text),
    /// A requirement with its exception, or a closed parenthesis.
    Operator,
}

/// A reader of the tokens of an expression, after some of them.
#[derive(Drop)]
pub struct Reader {
    pub requirements: List<Requirement>,
    pub outer: List<ParenLevel>,
    pub level: ParenLevel,
    pub phase: Phase,
}

impl Reader {
    /// The reader before the first token.
    pub fn new(alloc: Global) -> Reader
        ensures { result ≡ start }
    {
        Reader {
            requirements: List::new(alloc),
            outer: List::new(alloc),
            level: ParenLevel::new(alloc),
            phase: Phase::Operand,
        }
    }

    /// The expression of the tokens, or none where they are not a whole one.
    pub fn whole(self) -> Result<Option<Expression>, NoMemory>
        ensures { IfOk result (λ found. found ≡ whole (settled self)) }
    {
        self.settled()?.into_expression()
    }

    #[tactic(auto, unfolding(crate::specs::Reader::whole))]
    fn into_expression(self) -> Result<Option<Expression>, NoMemory>
        ensures { IfOk result (λ found. found ≡ whole self) }
    {
        let Reader {
            requirements,
            outer,
            level,
            phase,
        } = self;
        match phase {
            Phase::Operator if outer.len() == 0 => Ok(Some(Expression {
                requirements,
                tree: any_of(level.into_alternatives()?),
            })),
            _ => Ok(None),
        }
    }

    /// The reader with one more whole requirement.
    fn with_requirement(self, requirement: Requirement) -> Result<Reader, NoMemory>
        ensures { IfOk result (λ after. after ≡ with_requirement self requirement) }
    {
        let Reader {
            mut requirements,
            outer,
            level,
            phase: _,
        } = self;
        let number = requirements.len();
        requirements.push(requirement)?;
        let level = level.with_part(Tree::Requirement(number))?;
        Ok(Reader {
            requirements,
            outer,
            level,
            phase: Phase::Operator,
        })
    }

    /// The reader with a word at the end taken as a whole requirement.
    #[tactic(auto, unfolding(crate::specs::Reader::settled))]
    fn settled(self) -> Result<Reader, NoMemory>
        ensures { IfOk result (λ after. after ≡ settled self) }
    {
        let Reader {
            requirements,
            outer,
            level,
            phase,
        } = self;
        match phase {
            Phase::Named(id) => {
                let requirement = Requirement {
                    id,
                    exception: None,
                };
                let reader = Reader {
                    requirements,
                    outer,
                    level,
                    phase: Phase::Operator,
                };
                reader.with_requirement(requirement)
            },
            phase => Ok(Reader {
                requirements,
                outer,
                level,
                phase,
            }),
        }
    }

    #[tactic(auto, unfolding(crate::specs::Reader::word_step))]
    fn take_word(self, word: Text) -> Result<Option<Reader>, NoMemory>
        ensures { IfOk result (λ after. after ≡ word_step self word) }
    {
        let Reader {
            requirements,
            outer,
            level,
            phase,
        } = self;
        match phase {
            Phase::Operand => Ok(Some(Reader {
                requirements,
                outer,
                level,
                phase: Phase::Named(word),
            })),
            Phase::Excepted(id) => {
                let requirement = Requirement {
                    id,
                    exception: Some(word),
                };
                let reader = Reader {
                    requirements,
                    outer,
                    level,
                    phase: Phase::Operator,
                };
                Ok(Some(reader.with_requirement(requirement)?))
            },
            _ => Ok(None),
        }
    }

    #[tactic(auto, unfolding(crate::specs::Reader::with_step))]
    fn take_with(self) -> Option<Reader>
        ensures { result ≡ with_step self }
    {
        let Reader {
            requirements,
            outer,
            level,
            phase,
        } = self;
        match phase {
            Phase::Named(id) => Some(Reader {
                requirements,
                outer,
                level,
                phase: Phase::Excepted(id),
            }),
            _ => None,
        }
    }

    #[tactic(auto, unfolding(crate::specs::Reader::open_step))]
    fn take_open(self, alloc: Global) -> Result<Option<Reader>, NoMemory>
        ensures { IfOk result (λ after. after ≡ open_step self) }
    {
        let Reader {
            requirements,
            mut outer,
            level,
            phase,
        } = self;
        match phase {
            Phase::Operand if outer.len() < NESTING => {
                outer.push(level)?;
                Ok(Some(Reader {
                    requirements,
                    outer,
                    level: ParenLevel::new(alloc),
                    phase: Phase::Operand,
                }))
            },
            _ => Ok(None),
        }
    }

    #[tactic(auto, unfolding(crate::specs::Reader::and_step))]
    fn take_and(self) -> Option<Reader>
        ensures { result ≡ and_step self }
    {
        let Reader {
            requirements,
            outer,
            level,
            phase,
        } = self;
        match phase {
            Phase::Operator => Some(Reader {
                requirements,
                outer,
                level,
                phase: Phase::Operand,
            }),
            _ => None,
        }
    }

    #[tactic(auto, unfolding(crate::specs::Reader::or_step))]
    fn take_or(self, alloc: Global) -> Result<Option<Reader>, NoMemory>
        ensures { IfOk result (λ after. after ≡ or_step self) }
    {
        let Reader {
            requirements,
            outer,
            level,
            phase,
        } = self;
        match phase {
            Phase::Operator => Ok(Some(Reader {
                requirements,
                outer,
                level: ParenLevel {
                    alternatives: level.into_alternatives()?,
                    parts: List::new(alloc),
                },
                phase: Phase::Operand,
            })),
            _ => Ok(None),
        }
    }

    #[tactic(auto, unfolding(crate::specs::Reader::close_step))]
    fn take_close(self) -> Result<Option<Reader>, NoMemory>
        ensures { IfOk result (λ after. after ≡ close_step self) }
    {
        let Reader {
            requirements,
            mut outer,
            level,
            phase,
        } = self;
        let Phase::Operator = phase else {
            return Ok(None);
        };
        let Some(enclosing) = outer.vec.pop() else {
            return Ok(None);
        };
        let group = any_of(level.into_alternatives()?);
        Ok(Some(Reader {
            requirements,
            outer,
            level: enclosing.with_part(group)?,
            phase: Phase::Operator,
        }))
    }
}

impl TokenReader for Reader {
    ghost step = { step };

    #[tactic(auto, unfolding(crate::specs::Reader::step))]
    fn take(self, alloc: Global, token: SpdxToken) -> Result<Option<Reader>, NoMemory> {
        match token {
            SpdxToken::Word(word) => self.take_word(word),
            SpdxToken::And => Ok(self.settled()?.take_and()),
            SpdxToken::Or => self.settled()?.take_or(alloc),
            SpdxToken::With => Ok(self.take_with()),
            SpdxToken::Open => self.take_open(alloc),
            SpdxToken::Close => self.settled()?.take_close(),
        }
    }
}
