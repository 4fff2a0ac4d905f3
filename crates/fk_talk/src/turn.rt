use fk_model::Ask;

/// What a talk has next.
#[derive(Drop)]
pub enum Turn {
    /// It needs more bytes: no line is left, and what there is of one fits.
    Need,
    /// A line asks for a turn, whose answer comes before anything else is read.
    Ask(Ask),
    /// The talk has ended, or found no memory.
    Over,
}
