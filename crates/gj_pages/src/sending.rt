//! The bytes of answers, as they go out.
ghost use Rattle.gj_pages.specs.Loop.{GaveOut};
ghost use Rattle.gj_base.specs.Streams.{outgoing};

use gj_base::{Failed, Sink};

/// Writes all of the bytes, in as many writes as the sink takes them in.
pub(crate) fn send<O: Sink>(out: &mut O, bytes: &[u8]) -> Result<(), Failed>
    ensures { GaveOut (outgoing (O.tells out.old) (O.written out.old) (O.faults out.old) (O.sure out.old))
        (outgoing (O.tells out.new) (O.written out.new) (O.faults out.new) (O.sure out.new)) bytes.now result }
{
    let mut at = 0;
    while at < bytes.len() {
        let n = out.write(&bytes[at..])?;
        at += n;
    }
    Ok(())
}
