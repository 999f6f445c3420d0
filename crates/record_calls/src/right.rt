//! A record that was right is right still, behind one call.
ghost use Rattle.std.specs.Prelude.{◌≡◌, ◌≢◌, ◌⊎◌, ℕ, IsTrue, List, [], ◌∷◌, length};
ghost use Rattle.ntfs_def.specs.Attribute.{Attribute, attribute_at, attributes};
ghost use Rattle.ntfs_def.specs.Fixup.{opened_of};
ghost use Rattle.ntfs_def.specs.declared.kinds.TheConstants.{ATTRIBUTE_LIST, FILE_NAME, STANDARD_INFORMATION};
ghost use Rattle.volume_def.specs.AttributesClause.{IsRightPart, IsRightRecord, IsStandard, times_id};
ghost use Rattle.volume_def.specs.Files.{Part, is_base, part_of, record_of};
ghost use Rattle.volume_def.specs.View.{VolumeView};
ghost use Rattle.volume_edits.specs.Rewritten.{EditsBlock, RewritesRecord};
ghost use Rattle.file_record.specs.Attributes.{InsertsAttribute, ResizesAttribute, opened_record};
ghost use Rattle.file_record.specs.Written.{HoldsBytes, WritesBytes};
ghost use Rattle.record_calls.specs.Calls.{MayReplace};
ghost use Rattle.record_calls.specs.Edits.{record_there};
ghost use Rattle.record_calls.specs.Rising.{RisesAt};

/// A record that was right is right where an attribute came that is right by itself, at a place where types rise still, under an id that no
/// other has (`come`), and where one went (`gone`); in a base record neither is a `$STANDARD_INFORMATION`. It is where one was put in the
/// place of another of its type, under the same id or one that no other has, as where bytes were written (`put`); and where a value that is
/// no name of a file has another length, a `$STANDARD_INFORMATION` 48 or 72 bytes (`resized`).
pub fn record_right()
    ensures come { (old new : VolumeView) (n i : ℕ) (attr : List ℕ) → (e : InsertsAttribute old new n i attr)
        → IsRightRecord n (record_there old n) → RisesAt (attributes (opened_record old n)) i (attribute_at attr 0).kind
        → times_id (attribute_at attr 0).id (record_there old n).parts ≡ 0 → IsRightPart (part_of n (attribute_at attr 0))
        → (IsTrue (is_base (record_there old n)) → (attribute_at attr 0).kind ≢ STANDARD_INFORMATION)
        → IsRightRecord n (record_of n (opened_of e.stored)) }
    ensures gone { (old new : VolumeView) (n : ℕ) (stored : List ℕ) (was : Attribute) → EditsBlock old new n stored (was ∷ []) []
        → IsRightRecord n (record_there old n) → (IsTrue (is_base (record_there old n)) → was.kind ≢ STANDARD_INFORMATION)
        → IsRightRecord n (record_of n (opened_of stored)) }
    ensures put { (old new : VolumeView) (n : ℕ) (stored : List ℕ) (was now : Attribute) → RewritesRecord old new n stored was now
        → IsRightRecord n (record_there old n) → now.kind ≡ was.kind
        → (now.id ≡ was.id) ⊎ (times_id now.id (record_there old n).parts ≡ 0) → IsRightPart (part_of n now)
        → (IsTrue (is_base (record_there old n)) → now.kind ≡ STANDARD_INFORMATION → IsStandard (part_of n now))
        → IsRightRecord n (record_of n (opened_of stored)) }
    ensures resized { (old new : VolumeView) (n i len : ℕ) → (e : ResizesAttribute old new n i len)
        → IsRightRecord n (record_there old n) → e.was.kind ≢ FILE_NAME
        → (IsTrue (is_base (record_there old n)) → e.was.kind ≡ STANDARD_INFORMATION → (len ≡ 48) ⊎ (len ≡ 72))
        → IsRightRecord n (record_of n (opened_of e.stored)) }
{}

/// Bytes written into a value that is neither a list nor a name of a file put it in its own place, as one that replaces another
/// (`value_replaced`, `value_steps`), where the record was right.
pub fn bytes_replace()
    ensures { (old new : VolumeView) (part : Part) (at : ℕ) (from : List ℕ) → (e : WritesBytes old new part at from)
        → IsRightRecord part.holder (record_there old part.holder) → HoldsBytes at (length from) part → part.kind ≢ ATTRIBUTE_LIST
        → part.kind ≢ FILE_NAME → MayReplace old part.holder e.was e.now }
{}
