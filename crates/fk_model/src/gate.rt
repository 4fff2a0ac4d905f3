use fk_json::Text;

/// What a HELLO has to answer to be accepted.
#[derive(Drop)]
pub struct Gate {
    /// The password whose hash a client tells, if one is set.
    pub password: Option<Text>,
    /// The random word that the greeting tells as the salt, where a password is set.
    pub salt: u64,
    /// How often the hash is taken, at least once.
    pub rounds: u32,
}
