//! Whole calls on the one record of a file without an attribute list, on a volume that is ready for a call; and a file that is made.
ghost use Rattle.std.specs.Prelude.{◌≡◌, ◌/◌, ◌≤◌, ℕ, Bool, IsTrue, List, length};
ghost use Rattle.ntfs_def.specs.Attribute.{Attribute, attribute_at};
ghost use Rattle.volume_def.specs.View.{VolumeView};
ghost use Rattle.volume_edits.specs.Rewritten.{RewritesRecord};
ghost use Rattle.file_record.specs.MountedType.{Mounted};
ghost use Rattle.file_record.specs.Changes.{with_record_taken};
ghost use Rattle.file_record.specs.FreeRecords.{IsOrdinaryFree};
ghost use Rattle.edit_def.specs.Account.{Wants, nothing};
ghost use Rattle.edit_def.specs.Edited.{Edited};
ghost use Rattle.edit_def.specs.Kept.{key_of, same_key};
ghost use Rattle.edit_def.specs.Marks.{Marks};
ghost use Rattle.file_edits.specs.Between.{IsReady};
ghost use Rattle.file_record.specs.Attributes.{InsertsAttribute, RemovesAttribute, ResizesAttribute};
ghost use Rattle.file_record.specs.Extensions.{CreatesBase};
ghost use Rattle.file_edits.specs.Files.{is_file_key};
ghost use Rattle.record_calls.specs.Calls.{IsInOneRecord, IsNewName, IsOtherValue, MayCome, MayReplace, MayResize};
ghost use Rattle.record_calls.specs.Marks.{marks_of};

/// A value that came is a call that names it, and costs its part and its name (`edited`); it leaves what the next call needs (`ready`).
pub fn value_comes()
    ensures edited { (f i : ℕ) (old new : VolumeView) (marks : Marks) (attr : List ℕ) (wants : Wants)
        → InsertsAttribute old new f i attr → IsReady old marks → IsInOneRecord old f → MayCome old f i (attribute_at attr 0)
        → IsNewName old f (attribute_at attr 0) → 1 ≤ wants.parts f → length (attribute_at attr 0).name / 2 ≤ wants.units f
        → Edited (same_key (key_of f (attribute_at attr 0).kind (attribute_at attr 0).name)) wants old new marks marks }
    ensures ready { (f i : ℕ) (old new : VolumeView) (marks : Marks) (attr : List ℕ) → InsertsAttribute old new f i attr
        → IsReady old marks → IsInOneRecord old f → MayCome old f i (attribute_at attr 0) → IsNewName old f (attribute_at attr 0)
        → IsReady new marks }
{}

/// A value that went is a call that names it, and costs nothing (`edited`); it leaves what the next call needs (`ready`).
pub fn value_goes()
    ensures edited { (f i : ℕ) (old new : VolumeView) (marks : Marks) → (e : RemovesAttribute old new f i) → IsReady old marks
        → IsInOneRecord old f → IsOtherValue e.was → Edited (same_key (key_of f e.was.kind e.was.name)) nothing old new marks marks }
    ensures ready { (f i : ℕ) (old new : VolumeView) (marks : Marks) → (e : RemovesAttribute old new f i) → IsReady old marks
        → IsInOneRecord old f → IsOtherValue e.was → IsReady new marks }
{}

/// A value in the place of another of its type and name, as one that was replaced, or into which bytes were written, is a call that names
/// it, and costs nothing (`edited`); it leaves what the next call needs (`ready`).
pub fn value_replaced()
    ensures edited { (f : ℕ) (old new : VolumeView) (marks : Marks) (stored : List ℕ) (was now : Attribute)
        → RewritesRecord old new f stored was now → IsReady old marks → IsInOneRecord old f → MayReplace old f was now
        → Edited (same_key (key_of f was.kind was.name)) nothing old new marks marks }
    ensures ready { (f : ℕ) (old new : VolumeView) (marks : Marks) (stored : List ℕ) (was now : Attribute)
        → RewritesRecord old new f stored was now → IsReady old marks → IsInOneRecord old f → MayReplace old f was now
        → IsReady new marks }
{}

/// A value that has another length is a call that names it, and costs nothing (`edited`); it leaves what the next call needs (`ready`).
pub fn value_resized()
    ensures edited { (f i len : ℕ) (old new : VolumeView) (marks : Marks) → (e : ResizesAttribute old new f i len) → IsReady old marks
        → IsInOneRecord old f → MayResize e.was len → Edited (same_key (key_of f e.was.kind e.was.name)) nothing old new marks marks }
    ensures ready { (f i len : ℕ) (old new : VolumeView) (marks : Marks) → (e : ResizesAttribute old new f i len) → IsReady old marks
        → IsInOneRecord old f → MayResize e.was len → IsReady new marks }
{}

/// A file that was made in a free record, with a `$STANDARD_INFORMATION` of 72 bytes alone, is a call that names it, and costs a record and
/// a part (`edited`); it leaves what the next call needs (`ready`).
pub fn new_file()
    ensures edited { (old new : VolumeView) (was now : Mounted) (n : ℕ) (dir : Bool) (standard : List ℕ) (wants : Wants)
        → IsTrue old.told → CreatesBase old new n dir standard → length standard ≡ 72 → now ≡ with_record_taken was n
        → IsOrdinaryFree was.records n → IsReady old (marks_of was) → 1 ≤ wants.parts n → 1 ≤ wants.records
        → Edited (is_file_key n) wants old new (marks_of was) (marks_of now) }
    ensures ready { (old new : VolumeView) (was now : Mounted) (n : ℕ) (dir : Bool) (standard : List ℕ) → IsTrue old.told
        → CreatesBase old new n dir standard → length standard ≡ 72 → now ≡ with_record_taken was n → IsOrdinaryFree was.records n
        → IsReady old (marks_of was) → IsReady new (marks_of now) }
{}
