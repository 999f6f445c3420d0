//! Laws with nothing to run: the answers exclude one another.
ghost use Rattle.std.specs.Prelude.{◌≡◌, ◌/◌, ℕ, List, Some, length};
ghost use Rattle.vol_disk.specs.Contents.{sector_in};
ghost use Rattle.ntfs_def.specs.Boot.{boot_sector};
ghost use Rattle.volume_def.specs.Sound.{IsAccepted};
ghost use Rattle.volume_def.specs.VersionClause.{IsClean};
ghost use Rattle.mft_table.specs.declared.mounted.Mounted.{Mounted as Tables};
ghost use Rattle.mft_table.specs.declared.mount.MountNo.TheVariants.{Dirty, Refused};
ghost use Rattle.mft_table.specs.HeldTables.{HoldsTables, volume_in};
ghost use Rattle.mount_check.specs.Refusals.{IsMountNo};

/// An image has one answer: it is accepted, or was not closed, or is refused by one clause and one number.
pub fn one_answer()
    ensures accepted { (image : List ℕ) (tables : Tables) → HoldsTables 15 image tables → IsClean (volume_in image tables)
        → IsAccepted (sector_in (Some image)) (boot_sector image) (length image / 512) }
    ensures not_dirty { (image : List ℕ) → IsAccepted (sector_in (Some image)) (boot_sector image) (length image / 512)
        → ¬ (IsMountNo (Some image) Dirty) }
    ensures not_refused { (image : List ℕ) (k n : ℕ) → IsAccepted (sector_in (Some image)) (boot_sector image) (length image / 512)
        → ¬ (IsMountNo (Some image) (Refused k n)) }
    ensures dirty { (image : List ℕ) (k n : ℕ) → IsMountNo (Some image) Dirty → ¬ (IsMountNo (Some image) (Refused k n)) }
    ensures refused { (image : List ℕ) (k m l n : ℕ) → IsMountNo (Some image) (Refused k m) → IsMountNo (Some image) (Refused l n)
        → (k ≡ l) × (m ≡ n) }
{}
