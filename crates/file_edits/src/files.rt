//! Base records: their link counts, and files that come and go.
ghost use Rattle.std.specs.Prelude.{◌≡◌, ◌≢◌, ℕ, All, false, option_map, true};
ghost use Rattle.ntfs_def.specs.Fixup.{opened_of};
ghost use Rattle.ntfs_def.specs.declared.kinds.TheConstants.{FILE_NAME};
ghost use Rattle.volume_def.specs.FileNames.{names_of};
ghost use Rattle.volume_def.specs.Files.{record_of, records_of};
ghost use Rattle.volume_def.specs.View.{VolumeView};
ghost use Rattle.edit_def.specs.Account.{Wants, nothing};
ghost use Rattle.edit_def.specs.Edited.{Edited};
ghost use Rattle.edit_def.specs.Marks.{Marks};
ghost use Rattle.edit_def.specs.Names.{ComesUnnamed, GoesUnnamed, Numbers, numbers_at, numbers_in};
ghost use Rattle.record_edits.specs.Between.{IsReady};
ghost use Rattle.file_edits.specs.Files.{CostsFile, DropsFile, MakesFile, is_file_key};
ghost use Rattle.file_edits.specs.Links.{CountsFileLinks};

/// A link count that is set is a call that names nothing and costs nothing (`edited`), and leaves what the next one needs (`ready`). The
/// file counts so many links then (`own`), all other files tell what they told (`others`), and no name came or went (`names`).
pub fn links_set()
    ensures edited { (f links : ℕ) (old new : VolumeView) → CountsFileLinks f links old new → (marks : Marks) → IsReady old marks
        → Edited (λ key. false) nothing old new marks marks }
    ensures ready { (f links : ℕ) (old new : VolumeView) → CountsFileLinks f links old new → (marks : Marks) → IsReady old marks
        → IsReady new marks }
    ensures own { (f links : ℕ) (old new : VolumeView) → CountsFileLinks f links old new → numbers_at (records_of new) f
        ≡ option_map (λ (n : Numbers). record n { links = links }) (numbers_at (records_of old) f) }
    ensures others { (f links : ℕ) (old new : VolumeView) → CountsFileLinks f links old new → (g : ℕ) → g ≢ f
        → numbers_at (records_of new) g ≡ numbers_at (records_of old) g }
    ensures names { (f links : ℕ) (old new : VolumeView) → CountsFileLinks f links old new → (g : ℕ)
        → names_of (records_of new) g ≡ names_of (records_of old) g }
{}

/// A file that comes is a call that names it alone (`edited`), and leaves what the next one needs (`ready`). Where it has no name yet,
/// nothing else changed of names, nor of what base records tell (`unnamed`).
pub fn file_comes()
    ensures edited { (f : ℕ) (old new : VolumeView) (before after : Marks) → (t : MakesFile f old new before after)
        → IsReady old before → (wants : Wants) → CostsFile f (record_of f (opened_of t.stored)).parts wants
        → Edited (is_file_key f) wants old new before after }
    ensures ready { (f : ℕ) (old new : VolumeView) (before after : Marks) → (t : MakesFile f old new before after)
        → IsReady old before → IsReady new after }
    ensures unnamed { (f : ℕ) (old new : VolumeView) (before after : Marks) → (t : MakesFile f old new before after)
        → IsReady old before → All (λ part. part.kind ≢ FILE_NAME) (record_of f (opened_of t.stored)).parts
        → ComesUnnamed (records_of old) (records_of new) f (numbers_in (record_of f (opened_of t.stored))) }
{}

/// A file that goes is a call that names it alone, and costs nothing where it is of no plan (`edited`); it leaves what the next one needs
/// (`ready`). Where it had no name any more, nothing else changed of names, nor of what base records tell (`unnamed`).
pub fn file_goes()
    ensures edited { (f : ℕ) (old new : VolumeView) (before after : Marks) → DropsFile f old new before after → IsReady old before
        → (wants : Wants) → wants.goes f ≡ true → Edited (is_file_key f) wants old new before after }
    ensures ready { (f : ℕ) (old new : VolumeView) (before after : Marks) → DropsFile f old new before after → IsReady old before
        → IsReady new after }
    ensures unnamed { (f : ℕ) (old new : VolumeView) (before after : Marks) → DropsFile f old new before after → IsReady old before
        → All (λ part. part.kind ≢ FILE_NAME) (record_of f (opened_of (old.block f))).parts
        → GoesUnnamed (records_of old) (records_of new) f (numbers_in (record_of f (opened_of (old.block f)))) }
{}
