//! Writing a text whole.
ghost use Rattle.std.specs.Prelude.{◌≡◌, OnOk, OnErr};
ghost use Rattle.std.specs.Io.KnownBytes.{Appends};
ghost use Rattle.xs_edge.specs.Edge.{HasRisen, AppendsPart};

use xs_edge::{Failed, Sink};

/// Writes a text whole, in as many writes as the sink needs. It takes no memory. `Failed` comes only where the
/// sink's count of faults has risen; a front of the text, or nothing, was written then.
pub fn write_all<K: Sink>(sink: &mut K, text: &[u8]) -> Result<(), Failed>
    ensures ok { OnOk result (Appends (K.written sink.old) (K.written sink.new) text.now) }
    ensures calm { OnOk result (K.faults sink.new ≡ K.faults sink.old) }
    ensures part { OnErr result (AppendsPart (K.written sink.old) (K.written sink.new) text.now) }
    ensures failed { OnErr result (HasRisen (K.faults sink.old) (K.faults sink.new)) }
{
    let mut done = 0;
    while done < text.len() {
        done += sink.put(&text[done..])?;
    }
    Ok(())
}
