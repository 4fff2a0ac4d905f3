use crate::words::Words;
use std::alloc::{AllocError, Global};
use std::collections::BTreeMap;

/// Fills a map of the library, takes and puts, and answers the number of its pairs at the end.
pub(crate) fn run(alloc: Global, words: &Words) -> Result<usize, AllocError> {
    let order = words.order;
    let size = u64::from(words.size);
    let mut map = BTreeMap::new(alloc);
    for ticket in 0..size {
        map.insert((order.moment(ticket), ticket), ())?;
    }
    for oldest in 0..u64::from(words.count) {
        map.remove(&(order.moment(oldest), oldest));
        let ticket = size + oldest;
        map.insert((order.moment(ticket), ticket), ())?;
    }
    Ok(map.len())
}
