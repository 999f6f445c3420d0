//! Links that are counted in a base record.
ghost use Rattle.std.specs.Prelude.{ℕ, IsTrue, List};
ghost use Rattle.ntfs_def.specs.Fixup.{opened_of};
ghost use Rattle.volume_def.specs.Files.{is_base, record_of};
ghost use Rattle.volume_def.specs.View.{VolumeView};
ghost use Rattle.volume_edits.specs.Rewritten.{CountsLinks};
ghost use Rattle.file_edits.specs.Between.{MayBeEdited};
ghost use Rattle.file_edits.specs.Links.{CountsFileLinks};

/// Links counted in the base record of a file are the file's links counted.
pub fn links_counted()
    ensures { (f links : ℕ) (old new : VolumeView) (stored : List ℕ) → CountsLinks old new f stored links → MayBeEdited f
        → IsTrue (is_base (record_of f (opened_of (old.block f)))) → CountsFileLinks f links old new }
{}
