use crate::answer::Answer;
use crate::fault::Fault;
use crate::words::{first_word, number_in, texts_in};
use fk_frame::{Line, LineReader};

/// `lines SIZE TEXT|TEXT..`: what a reader of lines says that is fed with each text in pieces of so
/// many bytes, until it needs more or the line is too long.
pub(crate) fn lines(answer: &mut Answer, line: &str) -> Result<(), Fault> {
    let (size, rest) = first_word(line);
    let Ok(size) = usize::try_from(number_in(size)?) else {
        return Err(Fault::BadLine);
    };
    let mut reader = LineReader::new(answer.alloc());
    for text in &texts_in(answer.alloc(), rest)? {
        feed_all(answer, &mut reader, text, size)?;
    }
    Ok(())
}

/// Feeds a text in pieces of so many bytes.
fn feed_all(
    answer: &mut Answer,
    reader: &mut LineReader,
    text: &[u8],
    size: usize,
) -> Result<(), Fault> {
    for piece in text.chunks(size.max(1)) {
        reader.feed(piece)?;
        say_lines(answer, reader, piece.len())?;
    }
    Ok(())
}

/// What the reader says once it was fed so many bytes, in which at most as many lines end.
fn say_lines(answer: &mut Answer, reader: &mut LineReader, fed: usize) -> Result<(), Fault> {
    for _ in 0..=fed {
        match reader.next()? {
            Line::Whole(line) => answer.say_text("line", line.bytes())?,
            Line::Need => return Ok(answer.say("needs more")?),
            Line::TooLong => return Ok(answer.say("too long")?),
        }
    }
    Ok(())
}
