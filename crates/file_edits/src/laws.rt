//! Steps within one call.
ghost use Rattle.std.specs.Prelude.{ℕ, Bool, false};
ghost use Rattle.volume_def.specs.ExtentsClause.{MeetsExtents};
ghost use Rattle.volume_def.specs.Files.{parts, records_of};
ghost use Rattle.volume_def.specs.ListsClause.{HasRightList};
ghost use Rattle.volume_def.specs.Table.{cluster_bytes};
ghost use Rattle.volume_def.specs.View.{VolumeView};
ghost use Rattle.edit_def.specs.Account.{Wants, Within, also};
ghost use Rattle.edit_def.specs.Edited.{Edited};
ghost use Rattle.edit_def.specs.Kept.{Key, either, same_key};
ghost use Rattle.edit_def.specs.Marks.{Marks};
ghost use Rattle.edit_def.specs.Purses.{Costs};
ghost use Rattle.record_edits.specs.Between.{IsReady};
ghost use Rattle.record_edits.specs.Pending.{IsPending, Stepped};
ghost use Rattle.record_edits.specs.RecordEdit.{EditsPart, parts_made};
ghost use Rattle.record_edits.specs.Whole.{IsWhole};
ghost use Rattle.file_edits.specs.Steps.{LeavesNoneBare};

/// Two steps one after the other are one, behind which those attributes lag that lag behind the second (`turn`). An attribute that is whole
/// again lags no more (`mended`); where none lags, the clause on extents holds of the file (`whole`).
/// Where it holds behind the last step, and the list of the file is right, the steps leave what the next call needs (`ready`); where beside
/// no record of the file came to be without an attribute, they keep the promise of a call together (`edited`).
pub fn steps_in_turn()
    ensures turn { (f : ℕ) (first lags a b : Key → Bool) (v w c : Wants) (old mid new : VolumeView) (was between now : Marks)
        → Within (also v w) c → Stepped f first a v old mid was between → Stepped f lags b w mid new between now
        → Stepped f lags (either a b) c old new was now }
    ensures mended { (key : Key) (lags changed : Key → Bool) (wants : Wants) (old new : VolumeView) (was now : Marks)
        → Stepped key.file (either (same_key key) lags) changed wants old new was now → IsWhole new key
        → Stepped key.file lags changed wants old new was now }
    ensures whole { (f : ℕ) (view : VolumeView) (marks : Marks) → IsPending f (λ key. false) view marks
        → MeetsExtents (records_of view) (cluster_bytes view.layout) f }
    ensures edited { (f : ℕ) (lags changed : Key → Bool) (wants : Wants) (old new : VolumeView) (was now : Marks)
        → Stepped f lags changed wants old new was now → MeetsExtents (records_of new) (cluster_bytes new.layout) f
        → HasRightList new f (parts (records_of new) f) → LeavesNoneBare old new f → Edited changed wants old new was now }
    ensures ready { (f : ℕ) (lags changed : Key → Bool) (wants : Wants) (old new : VolumeView) (was now : Marks)
        → Stepped f lags changed wants old new was now → MeetsExtents (records_of new) (cluster_bytes new.layout) f
        → HasRightList new f (parts (records_of new) f) → IsReady new now }
{}

/// An attribute that is edited in two records of its file, one after the other, is whole again behind the second, as a stream whose last
/// extent grows in one record and whose sizes stand in the other: the two are a call that names it (`edited`), and leave what the next one
/// needs (`ready`).
pub fn edited_in_two()
    ensures edited { (key : Key) (v w wants : Wants) (old mid new : VolumeView) (was between now : Marks)
        → (a : EditsPart key old mid was between) → (b : EditsPart key mid new between now)
        → Costs (records_of old) (records_of mid) a.n key.file (parts_made a.n a.was) (parts_made a.n a.now) v
        → Costs (records_of mid) (records_of new) b.n key.file (parts_made b.n b.was) (parts_made b.n b.now) w → Within (also v w) wants
        → IsReady old was → IsWhole new key → HasRightList new key.file (parts (records_of new) key.file)
        → LeavesNoneBare old new key.file → Edited (same_key key) wants old new was now }
    ensures ready { (key : Key) (v w wants : Wants) (old mid new : VolumeView) (was between now : Marks)
        → (a : EditsPart key old mid was between) → (b : EditsPart key mid new between now)
        → Costs (records_of old) (records_of mid) a.n key.file (parts_made a.n a.was) (parts_made a.n a.now) v
        → Costs (records_of mid) (records_of new) b.n key.file (parts_made b.n b.was) (parts_made b.n b.now) w → Within (also v w) wants
        → IsReady old was → IsWhole new key → HasRightList new key.file (parts (records_of new) key.file) → IsReady new now }
{}
