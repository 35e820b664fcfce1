//! Laws of open changes, in words of their own.
ghost use Rattle.std.specs.Prelude.{◌≡◌, ℕ, List as Items};
ghost use Rattle.change_feed.specs.Changes.{changes_of};
ghost use Rattle.graph_schema.specs.Schema.{SchemaData};
ghost use Rattle.catalogue_state.specs.declared.reply.Refusal.{Refusal as ARefusal};
ghost use Rattle.session_run.specs.declared.record.LocalReply.TheVariants.{Count, Refused};
ghost use Rattle.session_run.specs.Own.{OwnPart, added_row};
ghost use Rattle.session_run.specs.Law.{AddsOne};

/// A row that is counted is one change, which stands behind the open ones then. A row that is refused leaves them.
pub fn a_counted_row_is_one_change()
    ensures counted { (own : OwnPart) (s : SchemaData) (row : Items ℕ) (n : ℕ) → (added_row own (changes_of s row)).0 ≡ Count n
        → AddsOne own (changes_of s row) n (added_row own (changes_of s row)).1 }
    ensures refused { (own : OwnPart) (s : SchemaData) (row : Items ℕ) (r : ARefusal) → (added_row own (changes_of s row)).0 ≡ Refused r
        → (added_row own (changes_of s row)).1 ≡ own }
{}
