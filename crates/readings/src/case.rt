use crate::answer::Answer;
use crate::decoder::decoded;
use crate::fault::Fault;
use crate::words::{first_word, texts_in};
use crate::{json, lines, lists, moments, moves, payloads, pieces, replies, streams};

/// Runs the calls that a line of the script asks for, and says what came of them.
pub(crate) fn answer_case(answer: &mut Answer, line: &str) -> Result<(), Fault> {
    let (kind, rest) = first_word(line);
    match kind {
        "moment-text" => moments::write(answer, rest),
        "string-of" => payloads::string_member(answer, rest),
        "row" => payloads::row(answer, rest),
        "failed-row" => payloads::failed_row(answer, rest),
        "lines" => lines::lines(answer, rest),
        "reply" => replies::reply(answer, rest),
        "replies" => streams::replies(answer, rest),
        "pairs" => lists::pairs(answer, rest),
        "moves" => moves::moves(answer, rest),
        "piece" => pieces::piece(answer, rest),
        "pieces" => pieces::pieces(answer, rest),
        "text" | "texts" | "jobs" => answer_texts(answer, kind, rest),
        _ => answer_text(answer, kind, rest),
    }
}

/// Kinds whose line is a list of texts.
fn answer_texts(answer: &mut Answer, kind: &str, rest: &str) -> Result<(), Fault> {
    let texts = texts_in(answer.alloc(), rest)?;
    match kind {
        "text" => lists::text(answer, &texts),
        "texts" => lists::texts(answer, &texts),
        "jobs" => lists::jobs(answer, &texts),
        _ => Err(Fault::BadLine),
    }
}

/// Kinds whose line is one text.
fn answer_text(answer: &mut Answer, kind: &str, rest: &str) -> Result<(), Fault> {
    let text = decoded(answer.alloc(), rest)?;
    match kind {
        "moment" => moments::read(answer, &text),
        "object" => json::object(answer, &text),
        "array" => json::array(answer, &text),
        "string" => json::string(answer, &text),
        "integer" => json::integer(answer, &text),
        "spelling" => json::spelling(answer, &text),
        "job" => payloads::job(answer, &text),
        _ => Err(Fault::BadLine),
    }
}
