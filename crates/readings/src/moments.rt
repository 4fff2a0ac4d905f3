use crate::answer::Answer;
use crate::fault::Fault;
use crate::words::moment_in;
use fk_time::{read_moment, write_moment};

/// `moment TEXT`: the milliseconds since 1970-01-01T00:00:00Z that the text says, or why not.
pub(crate) fn read(answer: &mut Answer, text: &[u8]) -> Result<(), Fault> {
    let told = match read_moment(text) {
        Ok(moment) => format!(in answer.alloc(); "{moment}")?,
        Err(fault) => format!(in answer.alloc(); "refused: {fault}")?,
    };
    answer.say(told.as_str())?;
    Ok(())
}

/// `moment-text NUMBER`: the text that is written for a moment.
pub(crate) fn write(answer: &mut Answer, word: &str) -> Result<(), Fault> {
    let moment = moment_in(word)?;
    answer.say_text("text", &write_moment(moment))?;
    Ok(())
}
