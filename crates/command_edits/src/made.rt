//! Calls made of calls.
ghost use Rattle.std.specs.Prelude.{◌≡◌, ◌≤◌, ◌+◌, ◌∷◌, ℕ, List, [], None, Some, false, true};
ghost use Rattle.ntfs_def.specs.FileName.{FileName, link_of};
ghost use Rattle.ntfs_def.specs.Node.{Item};
ghost use Rattle.ntfs_def.specs.declared.records.TheConstants.{FIRST_ORDINARY};
ghost use Rattle.volume_def.specs.Files.{parts, record_on, records_of};
ghost use Rattle.volume_def.specs.View.{VolumeView};
ghost use Rattle.tree_model.specs.Effects.{new_node};
ghost use Rattle.edit_def.specs.Account.{Wants, Within, also};
ghost use Rattle.edit_def.specs.Edited.{Edited};
ghost use Rattle.edit_def.specs.Items.{HasItems, IsCurrent, KeepsItems};
ghost use Rattle.edit_def.specs.Marks.{Marks};
ghost use Rattle.edit_def.specs.Names.{ComesUnnamed, Numbers, numbers_at};
ghost use Rattle.reading_edits.specs.NewFiles.{data_part, root_part, standard_part};
ghost use Rattle.command_edits.specs.Calls.{AddsLink, AddsName, ChangesIndex, DropsLink, DropsName, IsNewStandard, MakesNode};
ghost use Rattle.command_edits.specs.Calls.{RefreshesEntry, SetsLinks, link_with};
ghost use Rattle.command_edits.specs.Keys.{is_key_of};

/// A name that comes into a file, the count of links raised by one, and an entry put into the directory's index are the call by which a
/// file gets a name (`adds`); the name, the count and the entry taken back are that by which it loses one (`drops`); and one entry in the
/// place of another with the same link is one told anew (`refreshes`). The directory's items stay before its index changes.
pub fn calls_made()
    ensures adds { (a b c wants : Wants) (old named counted new : VolumeView) (m0 m1 m2 m3 : Marks) (f : ℕ) (name : FileName)
        → Within (also (also a b) c) wants → (was : Numbers) → numbers_at (records_of old) f ≡ Some was
        → AddsName a old named m0 m1 f name → SetsLinks b named counted m1 m2 f (was.links + 1)
        → KeepsItems old counted name.parent.number → (item : Item)
        → ChangesIndex c counted new m2 m3 name.parent.number [] (item ∷ []) → link_of item ≡ link_with f was.sequence name
        → IsCurrent new f item.key → AddsLink wants old new m0 m3 f name }
    ensures drops { (a b c wants : Wants) (old named counted new : VolumeView) (m0 m1 m2 m3 : Marks) (f links : ℕ) (name : FileName)
        → Within (also (also a b) c) wants → (was : Numbers) → numbers_at (records_of old) f ≡ Some (record was { links = links + 1 })
        → DropsName a old named m0 m1 f name → SetsLinks b named counted m1 m2 f links → KeepsItems old counted name.parent.number
        → (item : Item) → ChangesIndex c counted new m2 m3 name.parent.number (item ∷ []) []
        → link_of item ≡ link_with f was.sequence name → DropsLink wants old new m0 m3 f name }
    ensures refreshes { (wants : Wants) (old new : VolumeView) (before after : Marks) (f sequence : ℕ) (name : FileName) (was now : Item)
        → ChangesIndex wants old new before after name.parent.number (was ∷ []) (now ∷ []) → link_of was ≡ link_with f sequence name
        → link_of now ≡ link_of was → IsCurrent new f now.key → RefreshesEntry wants old new before after f name }
{}

/// A file that comes with its $STANDARD_INFORMATION and an empty stream is the machine's new file (`file`), and one with the root of an
/// index that has no item its new directory (`directory`).
pub fn nodes_made()
    ensures file { (wants : Wants) (old new : VolumeView) (before after : Marks) (f sequence now security id next : ℕ) (standard : List ℕ)
        → FIRST_ORDINARY ≤ f → record_on old f ≡ None → Edited (is_key_of f) wants old new before after
        → ComesUnnamed (records_of old) (records_of new) f (record { sequence = sequence; links = 0; directory = false })
        → parts (records_of new) f ≡ standard_part f id standard ∷ data_part f next ∷ [] → IsNewStandard false now security standard
        → MakesNode wants old new before after f false (new_node false now security) }
    ensures directory { (wants : Wants) (old new : VolumeView) (before after : Marks) (f sequence now security id next : ℕ)
        (standard : List ℕ) → FIRST_ORDINARY ≤ f → record_on old f ≡ None → Edited (is_key_of f) wants old new before after
        → (root : List ℕ) → ComesUnnamed (records_of old) (records_of new) f (record { sequence = sequence; links = 0; directory = true })
        → parts (records_of new) f ≡ standard_part f id standard ∷ root_part f next root ∷ [] → IsNewStandard true now security standard
        → HasItems new f [] → MakesNode wants old new before after f true (new_node true now security) }
{}
