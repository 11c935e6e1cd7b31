//! What the pass of the wide profile gathers.
ghost use Rattle.std.specs.Prelude.{◌≡◌, ◌++◌, [], IfOk};
ghost use Rattle.std.specs.List.{flat_map};
ghost use Rattle.std.specs.Option.{option_to_list};
ghost use Rattle.cb_scan.specs.steps.wide.Declarations.{given};
ghost use Rattle.cb_scan.specs.steps.wide.Givens.{object_given, typedef_given, variable_kind};
ghost use Rattle.cb_scan.specs.steps.wide.Pass.{part_at};

use crate::facts::{Def, Kind};
use crate::rules::scope::Range;
use crate::rules::wide::declaration::Declaration;
use crate::rules::wide::def::def_of;
use crate::rules::wide::token::WideToken;
use std::alloc::{AllocError, Global};
use std::marker::Model;

/// Functions and their ranges; types, tags, enumerators and members; variables, external
/// declarations and prototypes, also those of the heads of functions.
#[derive(Drop)]
pub(crate) struct Found {
    pub functions: Vec<Def>,
    pub ranges: Vec<Range>,
    pub defs: Vec<Def>,
    pub objects: Vec<Def>,
}

impl Model for Found {
    ghost use Rattle.cb_scan.specs.steps.wide.Lists.{Lists};

    ghost Value = { Lists };

    ghost view = { λ f. record {
      functions = f.functions.items;
      ranges = f.ranges.items;
      defs = f.defs.items;
      objects = f.objects.items;
    } };
}

/// The type that the part gives which ends here: by its prototype's name, or else by its own.
fn typedef_given(declaration: &Declaration) -> Option<Def>
    ensures { option_to_list result ≡ typedef_given (given declaration.now) }
{
    if !declaration.has_typedef {
        return None;
    }
    let part = &declaration.part;
    let name = part.function().or(part.named())?;
    Some(def_of(Kind::Typedef, false, &name.token))
}

/// A variable, or an external declaration: of `extern` and without a value.
fn variable_kind(declaration: &Declaration) -> Kind
    ensures { result ≡ variable_kind (given declaration.now) }
{
    if declaration.has_extern && !declaration.part.has_value {
        Kind::External
    } else {
        Kind::Variable
    }
}

/// The prototype that the part gives which ends here, or else the variable that it names.
fn object_given(declaration: &Declaration) -> Option<Def>
    ensures { option_to_list result ≡ object_given (given declaration.now) }
{
    if declaration.has_typedef {
        return None;
    }
    match declaration.part.function() {
        Some(name) => Some(def_of(Kind::Prototype, declaration.has_static, &name.token)),
        None => match declaration.part.named() {
            Some(name) => Some(def_of(
                variable_kind(declaration),
                declaration.has_static,
                &name.token,
            )),
            None => None,
        },
    }
}

impl Found {
    pub(crate) fn new(alloc: Global) -> Found
        ensures { result ≡ record { functions = []; ranges = []; defs = []; objects = [] } }
    {
        Found {
            functions: Vec::new(alloc),
            ranges: Vec::new(alloc),
            defs: Vec::new(alloc),
            objects: Vec::new(alloc),
        }
    }

    /// One more definition, if there is one.
    #[inline(always)]
    pub(crate) fn define(&mut self, def: Option<Def>) -> Result<(), AllocError>
        ensures { IfOk result
            (λ _. self.new ≡ record self.old { defs = self.old.defs ++ option_to_list def }) }
    {
        if let Some(def) = def {
            self.defs.push(def)?;
        }
        Ok(())
    }

    /// The part of the file that ends at a token, if one does.
    #[inline(always)]
    pub(crate) fn end_part(
        &mut self,
        declaration: &Declaration,
        item: &WideToken,
    ) -> Result<(), AllocError>
        ensures { IfOk result (λ _. self.new ≡ record self.old {
          defs = self.old.defs
              ++ flat_map typedef_given (part_at declaration.now item.now);
          objects = self.old.objects
              ++ flat_map object_given (part_at declaration.now item.now);
        }) }
    {
        if !declaration.ends_part(item) || !declaration.may_name() {
            return Ok(());
        }
        self.define(typedef_given(declaration))?;
        if let Some(def) = object_given(declaration) {
            self.objects.push(def)?;
        }
        Ok(())
    }

    /// A function, if there is one.
    pub(crate) fn begin_function(&mut self, def: Option<Def>) -> Result<(), AllocError>
        ensures { IfOk result (λ _. self.new ≡ record self.old {
          functions = self.old.functions ++ option_to_list def;
        }) }
    {
        if let Some(def) = def {
            self.functions.push(def)?;
        }
        Ok(())
    }

    /// The range of a function that ends, if one does.
    pub(crate) fn end_function(&mut self, range: Option<Range>) -> Result<(), AllocError>
        ensures { IfOk result
            (λ _. self.new ≡ record self.old { ranges = self.old.ranges ++ option_to_list range }) }
    {
        if let Some(range) = range {
            self.ranges.push(range)?;
        }
        Ok(())
    }

    /// The ranges of the functions.
    pub(crate) fn into_ranges(self) -> Vec<Range>
        ensures { result.items ≡ self.ranges }
    {
        self.ranges
    }
}
