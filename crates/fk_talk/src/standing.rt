use fk_json::Text;

/// How far a talk has come.
#[derive(Drop)]
pub enum Standing {
    /// The greeting was put out, and no HELLO was accepted.
    Nobody,
    /// A HELLO was accepted, of the worker of this wid, or of a producer where it is empty.
    Somebody(Text),
    /// The talk has ended: the client said END, its HELLO was refused, or a line was too long.
    Over,
}
