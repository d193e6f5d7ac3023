ghost use Rattle.std.specs.Prelude.{OnOk};
ghost use Rattle.ots_base.specs.Cause.{HasCause};
ghost use Rattle.ots_outside.specs.Streams.{Takes, TakesPrefix};

use crate::{Failed, Sink};

/// Writes all the bytes, or a prefix of them where a write fails.
pub fn write_all<K: Sink>(sink: &mut K, bytes: &[u8]) -> Result<(), Failed>
    ensures whole { OnOk result (Takes (K.taken sink.old) (K.taken sink.new) bytes.now) }
    ensures prefix { TakesPrefix (K.taken sink.old) (K.taken sink.new) bytes.now }
    ensures cause { HasCause (K.faults sink.old) (K.faults sink.new) result }
    ensures same { K.same sink.old sink.new }
{
    let mut at = 0;
    while at < bytes.len() {
        at += sink.write(&bytes[at..])?;
    }
    Ok(())
}
