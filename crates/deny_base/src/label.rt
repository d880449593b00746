use crate::span::Span;
use deny_base_lists::Text;

/// The number of a file among the files of a run, from 0 in the order in which they were added.
pub type FileId = u32;

/// Whether a label marks what the finding is about, or what helps to understand it.
#[derive(Debug, Clone, Copy)]
pub enum LabelStyle {
    Primary,
    Secondary,
}

/// A span of a file, and its message.
#[derive(Debug, Drop)]
pub struct Label {
    pub style: LabelStyle,
    pub file_id: FileId,
    pub span: Span,
    pub message: Text,
}
