//! What is found in a text, in a short form.
use crate::escapes::put_line;
use crate::failed::Failed;
use cb_scan::{Class, Def, Facts, Kind, Meter, Profile, Rules, Source, Span, Tag, pieces, scan};
use itoa::Buffer;
use std::alloc::Global;

/// Puts a number behind a text.
fn put_number(text: &mut Vec<u8>, number: u32) -> Result<(), Failed> {
    let mut digits = Buffer::new();
    text.extend_from_slice(digits.format(number).as_bytes())?;
    Ok(())
}

/// Puts the bytes of a span behind a text.
fn put_span(text: &mut Vec<u8>, source: &Source, span: Span) -> Result<(), Failed> {
    match source.bytes().get(span.start as usize..span.end as usize) {
        Some(bytes) => text.extend_from_slice(bytes)?,
        None => return Err(Failed),
    }
    Ok(())
}

/// Puts a name, a line and the name of a scope behind a text, `-` for none.
fn put_fact(
    text: &mut Vec<u8>,
    source: &Source,
    name: Span,
    line: u32,
    scope: Option<Span>,
) -> Result<(), Failed> {
    put_span(text, source, name)?;
    text.push(b' ')?;
    put_number(text, line)?;
    text.push(b' ')?;
    match scope {
        Some(scope) => put_span(text, source, scope)?,
        None => text.push(b'-')?,
    }
    text.push(b';')?;
    Ok(())
}

/// The letter of a kind, as tags(5) has it.
fn kind_letter(kind: Kind) -> u8 {
    match kind {
        Kind::Function => b'f',
        Kind::Macro => b'd',
        Kind::Typedef => b't',
        Kind::Struct => b's',
        Kind::Union => b'u',
        Kind::Enum => b'g',
        Kind::Enumerator => b'e',
        Kind::Member => b'm',
        Kind::Variable => b'v',
        Kind::External => b'x',
        Kind::Prototype => b'p',
    }
}

/// The word of a tag's kind.
fn tag_word(kind: Kind) -> &'static [u8] {
    match kind {
        Kind::Union => b" union:".as_slice(),
        Kind::Enum => b" enum:".as_slice(),
        _ => b" struct:".as_slice(),
    }
}

/// Puts the tag around a definition behind a text, if it has one.
fn put_tag(text: &mut Vec<u8>, source: &Source, tag: Option<Tag>) -> Result<(), Failed> {
    if let Some(tag) = tag {
        text.extend_from_slice(tag_word(tag.kind))?;
        put_span(text, source, tag.name)?;
    }
    Ok(())
}

/// Puts a definition as `NAME KIND LINE;`, with the tag around it, and with ` static` where it is
/// local, before the `;`.
fn put_def(text: &mut Vec<u8>, source: &Source, def: &Def) -> Result<(), Failed> {
    put_span(text, source, def.name)?;
    text.push(b' ')?;
    text.push(kind_letter(def.kind))?;
    text.push(b' ')?;
    put_number(text, def.line)?;
    put_tag(text, source, def.tag)?;
    if def.local {
        text.extend_from_slice(b" static")?;
    }
    text.push(b';')?;
    Ok(())
}

/// The definitions, or the functions among them.
fn put_defs(text: &mut Vec<u8>, scanned: &Scanned, all: bool) -> Result<(), Failed> {
    for def in scanned.facts.defs() {
        if all || def.kind == Kind::Function {
            put_def(text, &scanned.source, def)?;
        }
    }
    Ok(())
}

/// Uses as `NAME LINE SCOPE;`.
fn put_uses(text: &mut Vec<u8>, source: &Source, facts: &Facts) -> Result<(), Failed> {
    for item in facts.uses() {
        put_fact(text, source, item.name, item.line, item.scope)?;
    }
    Ok(())
}

/// Calls as `CALLEE LINE CALLER;`.
fn put_calls(text: &mut Vec<u8>, source: &Source, facts: &Facts) -> Result<(), Failed> {
    for call in facts.calls() {
        put_fact(text, source, call.callee, call.line, Some(call.caller))?;
    }
    Ok(())
}

/// Includes as `HEADER LINE SCOPE;`.
fn put_includes(text: &mut Vec<u8>, source: &Source, facts: &Facts) -> Result<(), Failed> {
    for include in facts.includes() {
        put_fact(text, source, include.header, include.line, include.scope)?;
    }
    Ok(())
}

/// The letter of a class.
fn class_letter(class: Class) -> u8 {
    match class {
        Class::Name => b'N',
        Class::Number => b'D',
        Class::Str => b'S',
        Class::Chr => b'C',
        Class::LineNote => b'L',
        Class::BlockNote => b'K',
        Class::Blank => b'W',
        Class::Newline => b'E',
        Class::Byte => b'B',
    }
}

/// For each byte the letter of its piece's class, in upper case where a piece begins.
fn put_pieces(text: &mut Vec<u8>, source: &Source) -> Result<(), Failed> {
    for piece in pieces(source) {
        let letter = class_letter(piece.class);
        for place in piece.span.start..piece.span.end {
            text.push(if place == piece.span.start {
                letter
            } else {
                letter.to_ascii_lowercase()
            })?;
        }
    }
    Ok(())
}

/// The count of lines, and each line after a `|`; no line has a number below 1 or above the count.
fn put_lines(text: &mut Vec<u8>, source: &Source) -> Result<(), Failed> {
    let count = source.line_count();
    if source.line(0).is_some() || source.line(count.saturating_add(1)).is_some() {
        return Err(Failed);
    }
    put_number(text, count)?;
    text.push(b' ')?;
    for number in 0..count {
        text.push(b'|')?;
        match source.line(number + 1) {
            Some(line) => text.extend_from_slice(line)?,
            None => return Err(Failed),
        }
    }
    Ok(())
}

/// A text, and what its scan finds.
#[derive(Drop)]
struct Scanned {
    source: Source,
    facts: Facts,
}

/// A text whose lines come one after the other.
#[derive(Drop)]
pub(crate) struct Text {
    bytes: Vec<u8>,
    /// What was found where something else should be.
    found: Vec<u8>,
}

/// Puts what a word asks for behind a text.
fn put_asked(text: &mut Vec<u8>, word: &[u8], scanned: &Scanned) -> Result<(), Failed> {
    match word {
        b"defs" | b"wide" | b"prototypes" => put_defs(text, scanned, true),
        b"functions" => put_defs(text, scanned, false),
        b"uses" => put_uses(text, &scanned.source, &scanned.facts),
        b"calls" => put_calls(text, &scanned.source, &scanned.facts),
        b"includes" => put_includes(text, &scanned.source, &scanned.facts),
        b"pieces" => put_pieces(text, &scanned.source),
        b"lines" => put_lines(text, &scanned.source),
        _ => Err(Failed),
    }
}

/// The profile by which a word asks.
fn profile_of(word: &[u8]) -> Profile {
    match word {
        b"wide" => Profile::all_by(Rules::Wide),
        b"prototypes" => Profile::all_by(Rules::Prototypes),
        _ => Profile::all_by(Rules::Standard),
    }
}

/// Scans a text, and sees that the meter counts its bytes.
fn scan_text(alloc: Global, profile: Profile, bytes: &[u8]) -> Result<Scanned, Failed> {
    let Ok(source) = Source::new(alloc, Vec::from_slice(alloc, bytes)?) else {
        return Err(Failed);
    };
    let mut meter = Meter::new();
    let Ok(facts) = scan(alloc, &mut meter, profile, &source) else {
        return Err(Failed);
    };
    if meter.read() != bytes.len() as u64 {
        return Err(Failed);
    }
    Ok(Scanned { source, facts })
}

impl Text {
    pub(crate) fn new(alloc: Global) -> Text {
        Text {
            bytes: Vec::new(alloc),
            found: Vec::new(alloc),
        }
    }

    /// Begins anew.
    pub(crate) fn clear(&mut self) {
        self.bytes.clear();
    }

    /// One more line.
    pub(crate) fn put_line(&mut self, line: &[u8]) -> Result<(), Failed> {
        put_line(&mut self.bytes, line)
    }

    /// Whether that is found which a word and a text after it ask for, both without the `: ` between
    /// them.
    pub(crate) fn has(
        &mut self,
        alloc: Global,
        word: &[u8],
        wanted: &[u8],
    ) -> Result<bool, Failed> {
        let mut told = Vec::new(alloc);
        put_line(&mut told, wanted)?;
        self.found.clear();
        put_asked(
            &mut self.found,
            word,
            &scan_text(alloc, profile_of(word), self.bytes.as_slice())?,
        )?;
        self.found.push(b'\n')?;
        Ok(self.found == told)
    }

    /// What was found at last.
    pub(crate) fn found(&self) -> &[u8] {
        self.found.as_slice()
    }
}
