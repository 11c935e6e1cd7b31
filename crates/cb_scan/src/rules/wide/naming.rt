//! What a part of a declaration names, by itself.
ghost use Rattle.std.specs.Prelude.{◌≡◌, ◌<◌, ◌^◌, length};
ghost use Rattle.cb_scan.specs.CodeTokens.{lone_part};
ghost use Rattle.cb_scan.specs.rules.wide.Declarations.{has_stray, has_value};
ghost use Rattle.cb_scan.specs.rules.wide.Levels.{numbered};
ghost use Rattle.cb_scan.specs.rules.wide.Names.{part_name};
ghost use Rattle.cb_scan.specs.rules.wide.Prototypes.{prototype_name};

use crate::rules::typedefs::nesting_after;
use crate::rules::wide::part::Part;
use crate::rules::wide::token::WideToken;

/// What a part names: its name and, where it declares a function, that name; whether it has a value,
/// and whether a token in it stands in no declaration.
#[derive(Clone, Copy)]
pub struct PartNames {
    pub name: Option<WideToken>,
    pub function: Option<WideToken>,
    pub has_value: bool,
    pub is_stray: bool,
}

/// What these tokens name as a part of a declaration, the first one or another. Attributes are left
/// out already, and a brace that counts stands for all up to its end. Time in proportion to the
/// tokens; no memory.
pub fn part_names(tokens: &[WideToken], is_first: bool) -> PartNames
    requires { length tokens.now < 2 ^ 32 }
    ensures name { result.name ≡ part_name (lone_part is_first tokens.now) }
    ensures function { result.function ≡ prototype_name (lone_part is_first tokens.now) }
    ensures value { result.has_value ≡ has_value (numbered 0 tokens.now) }
    ensures stray { result.is_stray ≡ has_stray (numbered 0 tokens.now) }
{
    let mut part = Part::new(is_first);
    let mut count = 0;
    for (i, item) in tokens.iter().enumerate() {
        part.add(&tokens[i..], item, count == 0);
        count = nesting_after(&item.token, count);
    }
    PartNames {
        name: part.named(),
        function: part.function(),
        has_value: part.has_value,
        is_stray: part.is_stray,
    }
}
