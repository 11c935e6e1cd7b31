//! What a name of a C text means, by rules over its tokens alone: no preprocessing, no compiler, all
//! branches of `#if`.
//!
//! [`Code`] is the code of a text. It tells what a name means that is known in its function alone: a
//! label, a local variable or a parameter; and it tells members, tags and other names apart.
//! [`parameter_at`] finds the parameters of macros. [`laws`] say what stays where a local or a label
//! has a new word. The crate stands on `cb_scan` (tokens of the code, functions) and knows one text
//! at a time.
#![tactic(auto)]

// The tokens of a function: what the word of each is, which are of attributes, which brackets pair,
// and what each `{` opens.
mod braces;
mod code;
mod function;
mod hard;
mod pairs;
mod shape;
mod word;

// Its statements: where they begin, and which are declarations.
mod declaration;
mod declarators;
mod declared;
mod scopes;
mod statements;

// What its names mean.
mod accesses;
mod bindings;
mod labels;
pub mod laws;
mod local;
mod meaning;
mod own;
mod space;
mod spaced;
mod spaces;
mod visible;

// What macros make of names, and the names of a function that may be macros.
mod directive;
mod macros;
mod names;
mod parameter;

pub use code::Code;
pub use directive::directive_space;
pub use local::{Access, Local, LocalUse};
pub use macros::{Macro, MacroName, macro_at, takes_member};
pub use names::{Arguments, FunctionNames};
pub use parameter::{Parameter, parameter_at};
pub use space::Space;
pub use spaced::{SpacedName, macro_names};
