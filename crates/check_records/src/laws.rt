//! Laws with nothing to run: the answers exclude one another.
ghost use Rattle.std.specs.Prelude.{◌≡◌, ◌/◌, ℕ, List, Some, length};
ghost use Rattle.vol_disk.specs.Contents.{sector_in};
ghost use Rattle.ntfs_def.specs.Boot.{boot_sector};
ghost use Rattle.volume_def.specs.Sound.{HasLayout, HoldBelow, IsAccepted, told_view};
ghost use Rattle.volume_def.specs.Table.{TableLayout};
ghost use Rattle.mft_table.specs.declared.mounted.Mounted.{Mounted as Tables};
ghost use Rattle.mft_table.specs.declared.mount.MountNo.TheVariants.{Refused};
ghost use Rattle.mft_table.specs.Mounted.{mounted_layout};
ghost use Rattle.check_records.specs.Refusals.{IsRefusal};
ghost use Rattle.mft_table.specs.HeldTables.{HoldsTables};

/// An image has one answer: it is refused by one clause and one number; one that is accepted, that meets the clauses that are
/// decided here, or whose tables are held, is not refused; and it has one table of records.
pub fn one_answer()
    ensures refused { (image : List ℕ) (k m l n : ℕ) → IsRefusal (Some image) (Refused k m) → IsRefusal (Some image) (Refused l n)
        → (k ≡ l) × (m ≡ n) }
    ensures accepted { (image : List ℕ) (k n : ℕ) → IsAccepted (sector_in (Some image)) (boot_sector image) (length image / 512)
        → ¬ (IsRefusal (Some image) (Refused k n)) }
    ensures met { (image : List ℕ) (layout : TableLayout) (k n : ℕ)
        → HasLayout (sector_in (Some image)) (boot_sector image) (length image / 512) layout
        → HoldBelow (told_view (sector_in (Some image)) layout) 10 → ¬ (IsRefusal (Some image) (Refused k n)) }
    ensures taken { (image : List ℕ) (tables : Tables) (k n : ℕ) → HoldsTables 10 image tables
        → ¬ (IsRefusal (Some image) (Refused k n)) }
    ensures one_table { (m n : ℕ) (image : List ℕ) (one other : Tables) → HoldsTables m image one → HoldsTables n image other
        → (one.geometry ≡ other.geometry) × (mounted_layout one ≡ mounted_layout other) × (one.clusters ≡ other.clusters)
        × (one.records ≡ other.records) × (one.upcase ≡ other.upcase) }
{}
