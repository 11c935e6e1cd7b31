//! What tokens mean: functions, typedefs, structures, directives, headers, scopes, and the order of
//! facts.
pub(crate) mod directives;
pub(crate) mod functions;
pub(crate) mod header;
pub(crate) mod heads;
pub(crate) mod order;
pub(crate) mod scope;
pub(crate) mod structures;
pub(crate) mod typedefs;
pub(crate) mod wide;
