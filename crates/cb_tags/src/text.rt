//! Whole texts.
ghost use Rattle.std.specs.List.{flat_map};
ghost use Rattle.cb_tags.specs.Writing.{Puts};

use crate::sink::{Sink, WriteFault};
use std::io::Write;

/// Writes a whole text.
pub fn put_text<W: Write>(out: &mut Sink<W>, text: &[u8]) -> Result<(), WriteFault>
    ensures { Puts out.old out.new result text.now }
{
    let mut at = 0;
    while at < text.len() {
        at += out.write(&text[at..])?;
    }
    Ok(())
}

/// Writes texts, one after another.
pub fn put_texts<W: Write>(out: &mut Sink<W>, texts: &[&[u8]]) -> Result<(), WriteFault>
    ensures { Puts out.old out.new result (flat_map (λ text. text.now) texts.now) }
{
    for text in texts {
        put_text(out, text)?;
    }
    Ok(())
}
