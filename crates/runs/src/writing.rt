//! Writing a text that was built whole.

ghost use Rattle.std.specs.Prelude.{◌≡◌, ◌↔◌, true, false, Err, IfErr, OnOk, OnErr, flat_map};
ghost use Rattle.board_text.specs.Streams.{AppendsAll, AppendsPrefix, bytes_of};
ghost use Rattle.runs.specs.declared.fault.RunFault.TheVariants.{Write};

use crate::fault::RunFault;
use board_text::{Failed, Sink, write_all};

/// Writes the text. The writer must not have failed before.
/// After a fault a prefix of the text was written. The fault is named here, since reads and writes
/// both answer `Failed`: by a `From` a failed read would become `write fault` under `?`.
pub fn write_text<W: Sink>(writer: &mut W, text: &str) -> Result<(), RunFault>
    requires ready { W.has_failed writer.old ≡ false }
    ensures ok { OnOk result (AppendsAll (bytes_of W.contents writer.old writer.new) text.now) }
    ensures prefix { OnErr result (AppendsPrefix (bytes_of W.contents writer.old writer.new)
        text.now) }
    ensures fault { IfErr result (λ fault. fault ≡ Write) }
    ensures failed { (W.has_failed writer.new ≡ true) ↔ (result ≡ Err Write) }
{
    match write_all(writer, text.as_bytes()) {
        Ok(()) => Ok(()),
        Err(Failed) => Err(RunFault::Write),
    }
}

/// Writes the text whose parts are `parts`, one after another. The writer must not have failed
/// before. After a fault a prefix of the text was written.
pub(crate) fn write_parts<W: Sink>(writer: &mut W, parts: &[Vec<u8>]) -> Result<(), RunFault>
    requires ready { W.has_failed writer.old ≡ false }
    ensures ok { OnOk result (AppendsAll (bytes_of W.contents writer.old writer.new)
        (flat_map (λ part. part.items) parts.now)) }
    ensures prefix { OnErr result (AppendsPrefix (bytes_of W.contents writer.old writer.new)
        (flat_map (λ part. part.items) parts.now)) }
    ensures fault { IfErr result (λ fault. fault ≡ Write) }
    ensures failed { (W.has_failed writer.new ≡ true) ↔ (result ≡ Err Write) }
{
    for part in parts {
        match write_all(writer, part.as_slice()) {
            Ok(()) => {}
            Err(Failed) => return Err(RunFault::Write),
        }
    }
    Ok(())
}
