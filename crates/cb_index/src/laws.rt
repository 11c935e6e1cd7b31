//! What holds of every order, and how uses and calls come, as functions that do nothing and whose
//! contracts are the laws.
ghost use Rattle.std.specs.Prelude.{◌≡◌, true, not, List, ℕ};
ghost use Rattle.std.specs.Cmp.{IsTotalOrder};
ghost use Rattle.std.specs.Cmp.Lexicographic.{slice_cmp};
ghost use Rattle.std.specs.Ordering.{is_gt, nat_cmp, on};
ghost use Rattle.std.specs.declared.cmp.Ordering.TheVariants.{Equal};
ghost use Rattle.cb_scan.specs.Order.{AreOrdered};
ghost use Rattle.cb_scan.specs.declared.profile.Profile.{Profile};
ghost use Rattle.cb_index.specs.Archived.{Archived};
ghost use Rattle.cb_index.specs.Entries.{sort_key};
ghost use Rattle.cb_index.specs.FactOrder.{ComesBefore, NamesAscend};
ghost use Rattle.cb_index.specs.Files.{File};
ghost use Rattle.cb_index.specs.Kinds.{keyer_of};
ghost use Rattle.cb_index.specs.RowOrders.{row_key, row_order};
ghost use Rattle.cb_index.specs.Rows.{facts_named};
ghost use Rattle.cb_index.specs.Spreads.{RowsAscend, SpreadsInto};
ghost use Rattle.cb_index.specs.declared.entry.Posting.{Posting};
ghost use Rattle.cb_index.specs.declared.entry.FactKind.{FactKind};
ghost use Rattle.cb_index.specs.declared.entry.IndexKind.{IndexKind};
ghost use Rattle.cb_index.specs.declared.sorted.Row.{Row};

use crate::sorted::RowOrder;

/// Every order is total, in every archive.
pub fn orders_are_total()
    ensures { (kind : IndexKind) (a : Archived)
        → IsTotalOrder (on (sort_key (keyer_of kind) a) (slice_cmp nat_cmp)) }
{}

/// Two entries are equal in an order only if they are the same entry.
pub fn equal_entries_are_one()
    ensures { (kind : IndexKind) (a : Archived) (e f : Posting)
        → slice_cmp nat_cmp (sort_key (keyer_of kind) a e) (sort_key (keyer_of kind) a f) ≡ Equal
        → e ≡ f }
{}

/// Every order of rows is total, in every archive.
pub fn row_orders_are_total<O: RowOrder>()
    ensures { (a : Archived) → IsTotalOrder (row_order O.kind a) }
{}

/// Only a row itself is equal to it in an order.
pub fn equal_rows_are_one<O: RowOrder>()
    ensures { (a : Archived) (r s : Row)
        → row_order O.kind a r s ≡ Equal → r ≡ s }
{}

/// The rows of one key stand together: what an order has between two of them has the key too.
pub fn rows_of_a_key_stand_together<O: RowOrder>()
    ensures { (a : Archived) (r s t : Row)
        → not (is_gt (row_order O.kind a r s)) ≡ true
        → not (is_gt (row_order O.kind a s t)) ≡ true
        → row_key (keyer_of O.kind) a r ≡ row_key (keyer_of O.kind) a t
        → row_key (keyer_of O.kind) a s ≡ row_key (keyer_of O.kind) a r }
{}

/// The entries of a key in an index of files, spread out into rows, are the rows of these files
/// that have the key, by file name and then by item.
pub fn ranges_have_the_rows_of_their_keys()
    ensures { (kind : IndexKind) → SpreadsInto kind }
{}

/// The rows of a key in files whose names ascend stand in the strict order of their kind.
pub fn rows_of_files_ascend()
    ensures { (kind : IndexKind) → RowsAscend kind }
{}

/// The uses or calls of a key in files whose names ascend come by file name, and those of one file
/// by place.
pub fn facts_come_by_place()
    ensures { (profile : Profile) (kind : FactKind) (key : List ℕ) (fs : List File)
        → NamesAscend fs → AreOrdered ComesBefore (facts_named profile kind key fs) }
{}
