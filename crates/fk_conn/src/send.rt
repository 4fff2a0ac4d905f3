ghost use Rattle.std.specs.Prelude.{◌≡◌, [], IfErr, OnErr, OnOk};
ghost use Rattle.fk_io.specs.declared.fault.Ended.TheVariants.{WriteFault};
ghost use Rattle.fk_talk.specs.Talks.{Talking};
ghost use Rattle.fk_conn.specs.Answering.{BreaksOff, Wrote};

use fk_io::{Ended, Failed, Sink};
use fk_talk::Talk;

/// Writes all of the bytes, or up to where a write fails.
fn write_all<O: Sink>(output: &mut O, bytes: &[u8]) -> Result<(), Failed>
    ensures ok { OnOk result (Wrote (O.written output.old) (O.written output.new) bytes.now) }
    ensures err { OnErr result
        (BreaksOff (O.written output.old) (O.written output.new) bytes.now) }
{
    let mut at = 0;
    while at < bytes.len() {
        match output.put(bytes.split_at(at).1) {
            Ok(count) => at += count,
            Err(failed) => return Err(failed),
        }
    }
    Ok(())
}

/// Sends all that a talk has to be sent.
pub fn send<O: Sink>(talk: &mut Talk, output: &mut O) -> Result<(), Ended>
    ensures ok { OnOk result (Wrote (O.written output.old) (O.written output.new) talk.old.out) }
    ensures sent { OnOk result (talk.new ≡ record talk.old { out = [] }) }
    ensures err { IfErr result (λ ended. ended ≡ WriteFault) }
    ensures breaks { OnErr result
        (BreaksOff (O.written output.old) (O.written output.new) talk.old.out) }
{
    if write_all(output, talk.out()).is_err() {
        return Err(Ended::WriteFault);
    }
    let count = talk.out().len();
    talk.sent(count);
    Ok(())
}
