//! The wide profile: enumerators, members, variables and prototypes, and the names of functions and
//! typedefs by the same rules.
pub(crate) mod ahead;
pub(crate) mod attribute;
pub(crate) mod beside;
pub(crate) mod called;
pub(crate) mod declaration;
pub(crate) mod def;
pub(crate) mod enumeration;
pub(crate) mod found;
pub(crate) mod head;
pub(crate) mod joint;
pub(crate) mod level;
pub(crate) mod levels;
pub(crate) mod machine;
pub(crate) mod naming;
pub(crate) mod opening;
pub(crate) mod part;
pub(crate) mod pass;
pub(crate) mod pointer;
pub(crate) mod reader;
pub(crate) mod role;
pub(crate) mod sight;
pub(crate) mod tail;
pub(crate) mod token;
pub(crate) mod window;
