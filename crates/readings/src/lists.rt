// Calls of the lists that no other line makes. What they promise is proved, but that they find
// memory.
use crate::answer::Answer;
use crate::fault::Fault;
use crate::payloads::texts_of;
use crate::words::number_in;
use fk_job::{Jobs, read_job};
use fk_json::{Pairs, Text};
use std::alloc::Global;
use std::cmp::Ordering;

/// `text TEXT|TEXT..`: a text that stands in the program and a copy of it, which grow by each of
/// these, and how the text compares with what it was before.
pub(crate) fn text(answer: &mut Answer, pieces: &[Vec<u8>]) -> Result<(), Fault> {
    let mut fixed = Text::fixed(answer.alloc(), b"OK");
    let mut owned = Text::copy(answer.alloc(), b"OK")?;
    for piece in pieces {
        grow(answer, &mut fixed, piece)?;
        owned.push_bytes(piece)?;
        answer.say_text("owned", owned.bytes())?;
    }
    Ok(())
}

/// Adds a piece to a text.
fn grow(answer: &mut Answer, text: &mut Text, piece: &[u8]) -> Result<(), Fault> {
    let before = text.copied()?;
    text.push_bytes(piece)?;
    answer.say(order_of(&before, text))?;
    answer.say_text("fixed", text.bytes())?;
    Ok(())
}

/// How a text compares with another one.
fn order_of(before: &Text, after: &Text) -> &'static str {
    match before.cmp(after) {
        Ordering::Less => "it was less",
        Ordering::Equal => "it was equal",
        Ordering::Greater => "it was greater",
    }
}

/// `texts TEXT|TEXT..`: a list of these texts, copied, and cleared.
pub(crate) fn texts(answer: &mut Answer, items: &[Vec<u8>]) -> Result<(), Fault> {
    let mut list = texts_of(answer.alloc(), items)?;
    let copy = list.copied()?;
    list.clear();
    for text in copy.as_slice() {
        answer.say_text("text", text.bytes())?;
    }
    say_counts(answer, copy.len(), list.len())
}

/// How many items a list has, and how many are left of one that was cleared.
fn say_counts(answer: &mut Answer, count: usize, left: usize) -> Result<(), Fault> {
    let told = format!(in answer.alloc(); "items: {count}, once cleared {left}")?;
    answer.say(told.as_str())?;
    Ok(())
}

/// `pairs FIRST SECOND FIRST SECOND..`: a list of the first pair, to which the others are added at
/// once.
pub(crate) fn pairs(answer: &mut Answer, line: &str) -> Result<(), Fault> {
    let others = pairs_in(answer.alloc(), line)?;
    let Some((first, others)) = others.as_slice().split_first() else {
        return Err(Fault::BadLine);
    };
    let mut pairs = Pairs::new(answer.alloc());
    pairs.reserve(1)?;
    pairs.push(*first)?;
    pairs.extend(others)?;
    say_pairs(answer, &pairs)?;
    let count = pairs.len();
    pairs.clear();
    say_counts(answer, count, pairs.len())
}

fn say_pairs(answer: &mut Answer, pairs: &Pairs) -> Result<(), Fault> {
    for place in 0..pairs.len() {
        if let Some((first, second)) = pairs.get(place) {
            let told = format!(in answer.alloc(); "{first} {second}")?;
            answer.say(told.as_str())?;
        }
    }
    Ok(())
}

/// The pairs that a line has, with spaces between all numbers.
fn pairs_in(alloc: Global, line: &str) -> Result<Vec<(u64, u64)>, Fault> {
    let mut pairs = Vec::new(alloc);
    let mut first = None;
    for word in line.split(' ') {
        let number = number_in(word)?;
        match first.take() {
            None => first = Some(number),
            Some(first) => pairs.push((first, number))?,
        }
    }
    if first.is_some() {
        return Err(Fault::BadLine);
    }
    Ok(pairs)
}

/// `jobs PAYLOAD|PAYLOAD..`: a list of a copy of the first job, to which a list of all of them is
/// added at once.
pub(crate) fn jobs(answer: &mut Answer, payloads: &[Vec<u8>]) -> Result<(), Fault> {
    let others = jobs_of(answer.alloc(), payloads)?;
    let mut jobs = Jobs::new(answer.alloc());
    if let Some(first) = others.get(0) {
        jobs.reserve(1)?;
        jobs.push(first.copied()?)?;
    }
    jobs.append(others)?;
    say_jobs(answer, &jobs)?;
    let count = jobs.len();
    jobs.clear();
    say_counts(answer, count, jobs.len())
}

/// The jobs of these payloads.
fn jobs_of(alloc: Global, payloads: &[Vec<u8>]) -> Result<Jobs, Fault> {
    let mut jobs = Jobs::new(alloc);
    for payload in payloads {
        jobs.push(read_job(alloc, payload)?)?;
    }
    Ok(jobs)
}

fn say_jobs(answer: &mut Answer, jobs: &Jobs) -> Result<(), Fault> {
    for place in 0..jobs.len() {
        if let Some(job) = jobs.get(place) {
            answer.say_text("jid", job.jid.bytes())?;
        }
    }
    Ok(())
}
