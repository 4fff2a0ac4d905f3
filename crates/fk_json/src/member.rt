use crate::{ListOf, Text};

/// One member of a JSON object: its decoded name, where the name stands with its quotes, and where
/// the value stands.
#[derive(Drop)]
pub struct Member {
    pub name: Text,
    pub name_from: usize,
    pub name_to: usize,
    pub from: usize,
    pub to: usize,
}

/// A list of members.
pub type Members = ListOf<Member>;
