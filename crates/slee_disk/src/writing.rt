//! Bytes written whole to a sink.
ghost use Rattle.slee_disk.specs.Writes.{Writes};

use crate::{Failed, Sink};

/// Writes all the bytes. Where the sink fails, a front of them is out.
#[tactic(auto, using(crate::proofs::WritesLemmas::writes_front))]
pub fn write_whole<K: Sink>(sink: &mut K, bytes: &[u8]) -> Result<(), Failed>
    ensures { Writes K.contents K.faults sink.old sink.new bytes.now result }
{
    let mut at = 0;
    while at < bytes.len() {
        let Ok(count) = sink.write(&bytes[at..]) else {
            return Err(Failed);
        };
        if count == 0 {
            return Err(Failed);
        }
        at += count;
    }
    Ok(())
}
