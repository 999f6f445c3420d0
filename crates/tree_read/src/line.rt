//! A line of `links`, as lines are put in order.
ghost use Rattle.std.specs.Prelude.{◌≡◌, IfErr, IfOk};
ghost use Rattle.tree_model.specs.Answers.{path_text};
ghost use Rattle.tree_model.specs.declared.reply.No.TheVariants as no;

use std::alloc::Global;
use tree_model::{No, ShownLink, path_text};

/// A line of `links`, with the text of its path, by which lines are ordered.
#[derive(Drop)]
pub struct Line {
    pub(crate) text: Vec<u8>,
    pub(crate) shown: ShownLink,
    ghost told: { text.items ≡ path_text shown.path },
}

impl Line {
    /// The line that shows a link.
    ///
    /// # Errors
    ///
    /// `Memory` alone.
    pub fn new(alloc: Global, shown: ShownLink) -> Result<Line, No>
        ensures line { IfOk result (λ line. line.shown ≡ shown) }
        ensures err { IfErr result (λ refused. refused ≡ no.Memory) }
    {
        let text = path_text(alloc, shown.path.as_slice())?;
        Ok(Line { text, shown })
    }
}
