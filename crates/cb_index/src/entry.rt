//! What an index keeps, the five kinds of index, and which entries of one a question asks for.

/// The kinds of facts that are found by a key: of these the first of each key in a version is an
/// entry of an index.
#[derive(Clone, Copy, Debug, PartialEq, Eq)]
pub enum FactKind {
    /// Uses, by name.
    Uses,
    /// Calls, by the called name.
    Callees,
    /// Calls, by the name that calls.
    Callers,
}

/// The five indexes.
#[derive(Clone, Copy, Debug, PartialEq, Eq)]
pub enum IndexKind {
    /// Definitions by name; each is an entry.
    DefsByName,
    /// Definitions by the name that a plain tags file has for them; each is an entry.
    DefsByTagName,
    /// Uses or calls by their key.
    Facts(FactKind),
}

/// An entry of an index: a definition, or the first use or call of a key, by its number in a
/// version that is kept under a name. The prefix is the first eight bytes of its key as a big-endian
/// number.
#[derive(Clone, Copy, Debug, PartialEq, Eq)]
pub struct Posting {
    pub prefix: u64,
    pub name: u32,
    pub version: u32,
    pub number: u32,
    /// How many rows it stands for; equal ones count as one.
    pub rows: u32,
}

/// A version that is shown under a name.
#[derive(Clone, Copy, Debug, PartialEq, Eq)]
pub struct Shown {
    pub name: u32,
    pub version: u32,
}

/// The entries that a question asks for.
#[derive(Clone, Copy)]
pub(crate) enum Asked<'p> {
    /// All.
    Every,
    /// Those that have a key.
    OfKey(&'p [u8]),
    /// Those whose keys are not less than a key.
    FromKey(&'p [u8]),
}
