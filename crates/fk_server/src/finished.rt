use fk_journal::Damage;

/// How a server ended: its exit status, the damage of its files for which it wasn't opened, and its two disks.
#[derive(Drop)]
pub struct Finished<D> {
    pub status: u8,
    /// It is there exactly where the status is 6.
    pub damage: Option<Damage>,
    pub a: D,
    pub b: D,
}
