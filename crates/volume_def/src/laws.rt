//! Laws with nothing to run: what a write of some sectors changes of a volume, and what it leaves.
ghost use Rattle.std.specs.Prelude.{◌≡◌, ◌+◌, ◌*◌, ◌<◌, ◌≤◌, ℕ, Bool, IsTrue, List, Some, length};
ghost use Rattle.volume_def.specs.Blocks.{mirror_sector, table_place};
ghost use Rattle.volume_def.specs.Coverage.{IsOutsideTable, IsApart};
ghost use Rattle.volume_def.specs.Looked.{AgreeWhereLooked};
ghost use Rattle.volume_def.specs.Sound.{Clause, HasLayout, IsAccepted, IsRefused, Meets, told_view};
ghost use Rattle.volume_def.specs.Table.{TableLayout, MeetsTable};
ghost use Rattle.volume_def.specs.VersionClause.{IsClean};
ghost use Rattle.volume_def.specs.View.{ReplacesBlock, ReplacesPiece, WritesOne, WritesTwo, view_of};

/// Where no cluster of the table is another of it or one of the mirror, a write of the two sectors of a block changes
/// that block and no other, no copy and no cluster outside the table; with a write of its copy behind it, the copy too;
/// and a write of a sector of a cluster outside the table and its mirror changes that sector of that cluster alone.
/// None of them changes a sector that belongs to no cluster.
pub fn frame_laws()
    ensures block { (told : Bool) (old new : ℕ → List ℕ) (layout : TableLayout) (n low high : ℕ) (stored : List ℕ)
        → IsApart layout
        → table_place layout (2 * n) ≡ Some low → table_place layout (2 * n + 1) ≡ Some high
        → WritesTwo told old new low high stored
        → 4 ≤ n → 1024 * n + 1024 ≤ layout.initialized → length stored ≡ 1024
        → ReplacesBlock (view_of told old layout) (view_of told new layout) n stored }
    ensures mirrored { (told : Bool) (old mid new : ℕ → List ℕ) (layout : TableLayout) (n low high : ℕ) (stored : List ℕ)
        → IsApart layout
        → table_place layout (2 * n) ≡ Some low → table_place layout (2 * n + 1) ≡ Some high
        → WritesTwo told old mid low high stored
        → n < 4 → WritesTwo told mid new (mirror_sector layout + 2 * n) (mirror_sector layout + 2 * n + 1) stored
        → 1024 * n + 1024 ≤ layout.initialized → length stored ≡ 1024
        → ReplacesBlock (view_of told old layout) (view_of told new layout) n stored }
    ensures piece { (told : Bool) (old new : ℕ → List ℕ) (layout : TableLayout) (c j : ℕ) (bytes : List ℕ) → IsApart layout
        → IsOutsideTable layout c → c < layout.clusters → j < layout.cluster_sectors
        → WritesOne told old new (c * layout.cluster_sectors + j) bytes
        → (IsTrue told → (i : ℕ) → i < layout.cluster_sectors → length (old (c * layout.cluster_sectors + i)) ≡ 512)
        → length bytes ≡ 512 → ReplacesPiece (view_of told old layout) (view_of told new layout) c j bytes }
{}

/// The sectors of a volume with this boot sector tell one table.
pub fn one_table()
    ensures { (disk : ℕ → List ℕ) (boot : List ℕ) (one other : TableLayout)
        → MeetsTable disk boot one → MeetsTable disk boot other → one ≡ other }
{}

/// An image has one answer: it is refused by one clause and one number, and one that is accepted is not refused.
pub fn one_answer()
    ensures refused { (disk : ℕ → List ℕ) (boot : List ℕ) (sectors k m l n : ℕ)
        → IsRefused disk boot sectors k m → IsRefused disk boot sectors l n → (k ≡ l) × (m ≡ n) }
    ensures accepted { (disk : ℕ → List ℕ) (boot : List ℕ) (sectors k n : ℕ)
        → IsAccepted disk boot sectors → ¬ (IsRefused disk boot sectors k n) }
{}

/// A change of sectors that no clause looks at changes no answer. Two disks with one boot sector that agree where a clause
/// looks agree so either way; what the one has for its table the other has, and number by number it meets the clauses that
/// the one meets, and is clean where the one is. So where one is accepted the other is, and where one is refused the other
/// is refused by the same clause and number.
pub fn same_answer()
    ensures agree { (old new : ℕ → List ℕ) (boot : List ℕ) → AgreeWhereLooked old new boot → AgreeWhereLooked new old boot }
    ensures layout { (old new : ℕ → List ℕ) (boot : List ℕ) (sectors : ℕ) (layout : TableLayout) → AgreeWhereLooked old new boot
        → HasLayout old boot sectors layout → HasLayout new boot sectors layout }
    ensures meets { (old new : ℕ → List ℕ) (boot : List ℕ) (sectors : ℕ) (layout : TableLayout) → AgreeWhereLooked old new boot
        → HasLayout old boot sectors layout
        → (clause : Clause) (n : ℕ) → Meets clause (told_view old layout) n → Meets clause (told_view new layout) n }
    ensures clean { (old new : ℕ → List ℕ) (boot : List ℕ) (sectors : ℕ) (layout : TableLayout) → AgreeWhereLooked old new boot
        → HasLayout old boot sectors layout → IsClean (told_view old layout) → IsClean (told_view new layout) }
    ensures accepted { (old new : ℕ → List ℕ) (boot : List ℕ) (sectors : ℕ) → AgreeWhereLooked old new boot
        → IsAccepted old boot sectors → IsAccepted new boot sectors }
    ensures refused { (old new : ℕ → List ℕ) (boot : List ℕ) (sectors k n : ℕ) → AgreeWhereLooked old new boot
        → IsRefused old boot sectors k n → IsRefused new boot sectors k n }
{}
