//! Functions and macros that call, and where they are.
ghost use Rattle.std.specs.Prelude.{◌≡◌};
ghost use Rattle.cb_wire.specs.Calls.{call_item_tree};
ghost use Rattle.cb_lsp.specs.Calls.{item_at, kind_in};
ghost use Rattle.cb_lsp.specs.steps.Located.{client_in};

use crate::callers::kind_in;
use crate::location::{Forms, Located};
use cb_desk::Desk;
use cb_wire::CallItem;

/// Functions and macros of a desk that call. Those of one file that come one behind the other go
/// through its lines once.
#[derive(Drop)]
pub(crate) struct CallerPlaces<'a> {
    pub(crate) forms: Forms<'a>,
    pub(crate) desk: &'a Desk,
    places: Located<'a>,
    ghost here: { places ≡ record {
      client = client_in forms;
      files = desk.now.timeline.present.files;
    } },
}

impl<'a> CallerPlaces<'a> {
    /// None yet.
    pub(crate) fn new(forms: Forms<'a>, desk: &'a Desk) -> CallerPlaces<'a>
        ensures forms { result.forms ≡ forms.entry }
        ensures desk { result.desk.now ≡ desk.entry.now }
    {
        CallerPlaces {
            forms,
            desk,
            places: Located::new(forms, desk),
        }
    }

    /// The one of a name that begins at a place of a file.
    pub(crate) fn item(&mut self, name: &'a [u8], file: &'a [u8], place: u32) -> CallItem<'a>
        ensures item { call_item_tree result ≡ item_at (client_in self.old.forms)
            self.old.desk.now.timeline.present.files name.entry.now
            (kind_in self.old.desk.now.timeline.present file.entry.now place)
            file.entry.now place }
        ensures forms { self.new.forms ≡ self.old.forms }
        ensures desk { self.new.desk.now ≡ self.old.desk.now }
    {
        let kind = kind_in(self.desk, file, place);
        self.places.item(name, kind, file, place)
    }
}
