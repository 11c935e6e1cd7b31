//! What the end of a run is called.
use crate::failed::Failed;
use cb_session::{Ended, Fault};
use itoa::Buffer;

/// Puts the words of an end behind other bytes.
pub(crate) fn put_end(bytes: &mut Vec<u8>, end: Ended) -> Result<(), Failed> {
    let words: &[u8] = match end {
        Ended::Done => b"done",
        Ended::Cut => b"cut",
        Ended::Fault(Fault::Read) => b"read fault",
        Ended::Fault(Fault::Write) => b"write fault",
        Ended::Fault(Fault::Memory) => b"out of memory",
        Ended::Fault(Fault::LongLine) => b"long line",
        Ended::Fault(Fault::ManyLines) => b"many lines",
        Ended::Operand(place, refusal) => {
            let mut number = Buffer::new();
            bytes.extend_from_slice(b"operand ")?;
            bytes.extend_from_slice(number.format(place).as_bytes())?;
            bytes.extend_from_slice(b": ")?;
            refusal.text().as_bytes()
        }
    };
    bytes.extend_from_slice(words)?;
    Ok(())
}
