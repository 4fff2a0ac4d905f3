ghost use Rattle.std.specs.Prelude.{◌≡◌, ◌+◌, ◌<◌};
ghost use Rattle.bench_timed.specs.Tickets.{AreBelow};

use crate::words::Words;
use fk_timed::{Steps, Timed};
use std::alloc::{AllocError, Global};
use std::marker::Brand;
use std::sync::ledger::{Blank, Ledger};

/// Fills a set, takes and puts, and answers the number of its pairs at the end.
#[tactic(auto, using(crate::proofs::Below::without_one))]
pub(crate) fn run(alloc: Global, words: &Words) -> Result<usize, AllocError> {
    let order = words.order;
    let size = u64::from(words.size);
    let mut timed = Timed::new(alloc);
    'fill: for ticket in 0..size {
        put(&mut timed, order.moment(ticket), ticket)?;
    }
    'turn: for oldest in 0..u64::from(words.count) {
        timed.take(order.moment(oldest), oldest);
        let ticket = size + oldest;
        put(&mut timed, order.moment(ticket), ticket)?;
    }
    Ok(timed.count())
}

// Puts a pair of a ticket above all tickets, with the memory for it.
#[tactic(auto, using(crate::proofs::Below::absent, crate::proofs::Below::with_next, crate::proofs::Below::more_below))]
fn put(timed: &mut Timed, moment: u64, ticket: u64) -> Result<(), AllocError>
    requires { AreBelow ticket timed.old.items }
    ensures { AreBelow (ticket + 1) timed.new.items }
{
    timed.reserve(1)?;
    timed.put(moment, ticket);
    Ok(())
}

/// The same with the comparisons counted: the number of pairs at the end, and the most comparisons
/// of one call.
pub(crate) fn run_counted(alloc: Global, words: &Words) -> Result<(usize, u64), AllocError> {
    count::<Brand>(alloc, words, Blank::new(1))
}

#[tactic(auto, using(crate::proofs::Below::without_one))]
fn count<L: Ledger>(alloc: Global, words: &Words, blank: Blank) -> Result<(usize, u64), AllocError>
    requires name { blank.name ≡ L.name }
    requires parts { blank.parts ≡ L.parts }
    requires some { 0 < blank.parts }
{
    let order = words.order;
    let size = u64::from(words.size);
    let mut steps = Steps::<L>::new(blank);
    let mut timed = Timed::new(alloc);
    let mut most = 0;
    'fill: for ticket in 0..size {
        let before = steps.count();
        put_counted(&mut timed, order.moment(ticket), ticket, &mut steps)?;
        most = most.max(steps.count().saturating_sub(before));
    }
    'turn: for oldest in 0..u64::from(words.count) {
        let before = steps.count();
        timed.take_counted(order.moment(oldest), oldest, &mut steps);
        let between = steps.count();
        let ticket = size + oldest;
        put_counted(&mut timed, order.moment(ticket), ticket, &mut steps)?;
        most = most.max(between.saturating_sub(before));
        most = most.max(steps.count().saturating_sub(between));
    }
    Ok((timed.count(), most))
}

// Puts a pair of a ticket above all tickets, with the memory for it, and counts the comparisons.
#[tactic(auto, using(crate::proofs::Below::absent, crate::proofs::Below::with_next, crate::proofs::Below::more_below))]
fn put_counted<L: Ledger>(
    timed: &mut Timed,
    moment: u64,
    ticket: u64,
    steps: &mut Steps<L>,
) -> Result<(), AllocError>
    requires { AreBelow ticket timed.old.items }
    ensures { AreBelow (ticket + 1) timed.new.items }
{
    timed.reserve(1)?;
    timed.put_counted(moment, ticket, steps);
    Ok(())
}
