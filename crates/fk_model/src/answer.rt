use fk_frame::Reply;

/// How a turn ended. The state is as before it but after `Said`.
#[derive(Drop)]
pub enum Answer {
    /// The turn was made, and this is its reply.
    Said(Reply),
    /// Memory ran out.
    NoMemory,
    /// A number would be beyond its limit.
    Full,
    /// A disk failed.
    DiskFault,
}
