ghost use Rattle.std.specs.Prelude.{OnOk, OnErr};
ghost use Rattle.floyd_text.specs.Outside.{Appends, AppendsFront, HasCause};

use crate::outside::{Sink, SinkFault};

/// Puts the whole text, or a front of it where the sink fails.
pub fn put_all<K: Sink>(out: &mut K, text: &[u8]) -> Result<(), SinkFault>
    ensures ok { OnOk result (Appends (K.written out.old) (K.written out.new) text.now) }
    ensures err { OnErr result (AppendsFront (K.written out.old) (K.written out.new) text.now) }
    ensures cause { HasCause (K.faults out.old) (K.faults out.new) result }
{
    let mut at = 0;
    'piece: while at < text.len() {
        at += out.put(&text[at..])?;
    }
    Ok(())
}
