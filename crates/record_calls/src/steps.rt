//! Calls with values on any record of a file, as steps within one call on the file.
ghost use Rattle.std.specs.Prelude.{◌≡◌, ◌/◌, ◌≤◌, ℕ, Bool, List, false, length};
ghost use Rattle.ntfs_def.specs.Attribute.{Attribute, attribute_at};
ghost use Rattle.volume_def.specs.Files.{record_on};
ghost use Rattle.volume_def.specs.View.{VolumeView};
ghost use Rattle.volume_edits.specs.Rewritten.{RewritesRecord};
ghost use Rattle.edit_def.specs.Account.{Wants, nothing};
ghost use Rattle.edit_def.specs.Kept.{Key, either, key_of, same_key};
ghost use Rattle.edit_def.specs.Marks.{Marks};
ghost use Rattle.edit_def.specs.Purses.{is_emptied};
ghost use Rattle.file_edits.specs.Pending.{IsPending, Stepped};
ghost use Rattle.file_record.specs.Attributes.{InsertsAttribute, RemovesAttribute, ResizesAttribute};
ghost use Rattle.record_calls.specs.Calls.{IsOtherValue, MayCome, MayEditIn, MayReplace, MayResize};

/// A value that came into a record of a file, which is no base record that was emptied, is a step that costs its part and its name
/// (`comes`). One that went (`goes`), one in the place of another (`replaced`), and one of another length (`resized`) are steps that cost
/// nothing. Behind each the value may lag.
pub fn value_steps()
    ensures comes { (f n i : ℕ) (lags : Key → Bool) (old new : VolumeView) (marks : Marks) (attr : List ℕ) (wants : Wants)
        → InsertsAttribute old new n i attr → IsPending f lags old marks → MayEditIn old f n → MayCome old n i (attribute_at attr 0)
        → is_emptied (record_on old n) ≡ false → 1 ≤ wants.parts f → length (attribute_at attr 0).name / 2 ≤ wants.units f
        → Stepped f (either (same_key (key_of f (attribute_at attr 0).kind (attribute_at attr 0).name)) lags)
        (same_key (key_of f (attribute_at attr 0).kind (attribute_at attr 0).name)) wants old new marks marks }
    ensures goes { (f n i : ℕ) (lags : Key → Bool) (old new : VolumeView) (marks : Marks) → (e : RemovesAttribute old new n i)
        → IsPending f lags old marks → MayEditIn old f n → IsOtherValue e.was
        → Stepped f (either (same_key (key_of f e.was.kind e.was.name)) lags) (same_key (key_of f e.was.kind e.was.name)) nothing old new
        marks marks }
    ensures replaced { (f n : ℕ) (lags : Key → Bool) (old new : VolumeView) (marks : Marks) (stored : List ℕ) (was now : Attribute)
        → RewritesRecord old new n stored was now → IsPending f lags old marks → MayEditIn old f n → MayReplace old n was now
        → Stepped f (either (same_key (key_of f was.kind was.name)) lags) (same_key (key_of f was.kind was.name)) nothing old new
        marks marks }
    ensures resized { (f n i len : ℕ) (lags : Key → Bool) (old new : VolumeView) (marks : Marks)
        → (e : ResizesAttribute old new n i len) → IsPending f lags old marks → MayEditIn old f n → MayResize e.was len
        → Stepped f (either (same_key (key_of f e.was.kind e.was.name)) lags) (same_key (key_of f e.was.kind e.was.name)) nothing old new
        marks marks }
{}
