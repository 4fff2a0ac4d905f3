use crate::keys::Order;
use std::rt::Env;
use std::{env, io};

/// Which set is measured.
#[derive(Clone, Copy)]
pub(crate) enum Set {
    Tree,
    Steps,
    Map,
}

/// What the program's words ask for.
#[derive(Clone, Copy)]
pub(crate) struct Words {
    pub(crate) set: Set,
    pub(crate) order: Order,
    pub(crate) size: u32,
    pub(crate) count: u32,
}

/// The words behind the program's name, or `None` where they aren't valid. A word that isn't UTF-8 is
/// an error.
pub(crate) fn read_words<R: Env + AllocGlobal>(rt: &R) -> io::Result<Option<Words>> {
    let mut words = env::args(rt)?.skip(1);
    let set = words.next().and_then(|word| set_of(word.as_str()));
    let order = words.next().and_then(|word| order_of(word.as_str()));
    let size = words
        .next()
        .and_then(|word| word.as_str().parse::<u32>().ok());
    let count = words
        .next()
        .and_then(|word| word.as_str().parse::<u32>().ok());
    if words.next().is_some() {
        return Ok(None);
    }
    Ok(match (set, order, size, count) {
        (Some(set), Some(order), Some(size), Some(count)) => Some(Words {
            set,
            order,
            size,
            count,
        }),
        _ => None,
    })
}

fn set_of(word: &str) -> Option<Set> {
    match word {
        "tree" => Some(Set::Tree),
        "steps" => Some(Set::Steps),
        "map" => Some(Set::Map),
        _ => None,
    }
}

fn order_of(word: &str) -> Option<Order> {
    match word {
        "rising" => Some(Order::Rising),
        "falling" => Some(Order::Falling),
        "mixed" => Some(Order::Mixed),
        _ => None,
    }
}
