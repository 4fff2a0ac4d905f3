use fk_json::{ListOf, Text};

/// A name, and how many pairs it has.
#[derive(Drop)]
pub struct Size {
    pub name: Text,
    pub count: u64,
}

/// A list of names, each with the number of its pairs.
pub type Sizes = ListOf<Size>;
