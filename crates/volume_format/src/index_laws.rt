//! Laws with nothing to run: the indexes of a new volume.
ghost use Rattle.std.specs.Prelude.{[], codes};
ghost use Rattle.ntfs_def.specs.declared.index.NodeForm.TheVariants.{View};
ghost use Rattle.ntfs_def.specs.declared.records.TheConstants.{EXTEND, ROOT, SECURE};
ghost use Rattle.ntfs_def.specs.Units.{wide};
ghost use Rattle.volume_def.specs.IndexesClause.{HasIndex, IsDirectoryIndex, hash_rule, id_rule, index_parts, word_rule};
ghost use Rattle.volume_def.specs.Sound.{Indexes};
ghost use Rattle.volume_format.specs.NewVolume.{HoldsOfNew, OfNewVolumes};
ghost use Rattle.volume_format.specs.IndexItems.{hash_items, id_items};

/// The indexes of a new volume. The root and `$Extend` have the names of the files that stand in them. Both indexes of
/// `$Secure` have the only security descriptor; those of object ids and of reparse points are empty. So the clause on
/// indexes holds.
pub fn planned_indexes()
    ensures root { OfNewVolumes (λ p view. IsDirectoryIndex view ROOT) }
    ensures extend { OfNewVolumes (λ p view. IsDirectoryIndex view EXTEND) }
    ensures security_ids { OfNewVolumes (λ p view.
        HasIndex View id_rule view (index_parts view SECURE (wide (codes "$SII"))) id_items) }
    ensures security_hashes { OfNewVolumes (λ p view.
        HasIndex View hash_rule view (index_parts view SECURE (wide (codes "$SDH"))) hash_items) }
    ensures object_ids { OfNewVolumes (λ p view.
        HasIndex View word_rule view (index_parts view 24 (wide (codes "$O"))) []) }
    ensures reparse_points { OfNewVolumes (λ p view.
        HasIndex View word_rule view (index_parts view 25 (wide (codes "$R"))) []) }
    ensures all { HoldsOfNew Indexes }
{}
