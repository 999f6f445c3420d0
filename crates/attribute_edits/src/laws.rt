//! Laws with nothing to run: what a volume is where the attributes of a file were set.
ghost use Rattle.std.specs.Prelude.{◌≡◌, ◌≢◌, ◌∷◌, ◌<◌, ◌^◌, ℕ, List, [], Some, bit_and, false, take, unwrap_or};
ghost use Rattle.std.specs.FinMap as finmap;
ghost use Rattle.ntfs_def.specs.declared.kinds.TheConstants.{INDEX_ROOT, STANDARD_INFORMATION};
ghost use Rattle.ntfs_def.specs.declared.records.TheConstants.{VOLUME};
ghost use Rattle.ntfs_def.specs.Node.{Item};
ghost use Rattle.volume_def.specs.Files.{Part, content_value, parts_at};
ghost use Rattle.volume_def.specs.Readable.{IsDirectory};
ghost use Rattle.volume_def.specs.Sound.{IsSound};
ghost use Rattle.volume_def.specs.Values.{first_part};
ghost use Rattle.volume_def.specs.View.{VolumeView};
ghost use Rattle.tree_model.specs.Bill.{Change};
ghost use Rattle.tree_model.specs.IndexRoom.{directory_index, index_depth};
ghost use Rattle.tree_model.specs.Reading.{node_at, read, tree_nodes};
ghost use Rattle.tree_model.specs.declared.tree.Node.{Node};
ghost use Rattle.tree_model.specs.declared.tree.TheConstants.{SHOWN_FLAGS};
ghost use Rattle.tree_model.specs.Tree.{Tree};
ghost use Rattle.edit_def.specs.Items.{HasItems};
ghost use Rattle.in_place.specs.Indexes.{KeepsIndexIfThere, KeepsRests};
ghost use Rattle.in_place.specs.Kept.{KeepsEntries, KeepsStandard};
ghost use Rattle.in_place.specs.Nodes.{flag_of};
ghost use Rattle.entry_edits.specs.Written.{LooksOutside};
ghost use Rattle.in_place.specs.InPlace.{Rewrites};
ghost use Rattle.in_place.specs.Unnamed.{CanSet, LiesApart};
ghost use Rattle.entry_edits.specs.Below.{SetsStandard, hidden_flags};
ghost use Rattle.entry_edits.specs.Refreshable.{index_name};
ghost use Rattle.entry_edits.specs.Attributes.{SetsAttributes};
ghost use Rattle.attribute_edits.specs.Attributes.{IsSecured, SecuresStandard, is_set_key};

/// Where the times and the DOS flags of a file were set in its standard information a sound volume stays sound (`sound`), and
/// its node has them; nothing else that the volume reads as changed (`reads`). What the tree does not show of that attribute
/// stays (`standard`), and so do DOS flags that are not shown (`marks`).
pub fn set_node_laws()
    ensures sound { (old new : VolumeView) (f : ℕ) (times : List ℕ) (flags : ℕ) → SetsStandard old new f times flags → IsSound old
        → LooksOutside old → f ≢ VOLUME → IsSound new }
    ensures reads { (old new : VolumeView) (f : ℕ) (times : List ℕ) (flags : ℕ) → SetsStandard old new f times flags → IsSound old
        → LooksOutside old → f ≢ VOLUME → bit_and flags SHOWN_FLAGS ≡ flags → (node : Node) → node_at old f ≡ Some node
        → read new ≡ record (read old) { nodes = finmap.insert (tree_nodes old) f (record node { times = times; flags = flags }) } }
    ensures standard { (old new : VolumeView) (f : ℕ) (times : List ℕ) (flags : ℕ) → SetsStandard old new f times flags
        → IsSound old
        → LooksOutside old → f ≢ VOLUME → bit_and flags SHOWN_FLAGS ≡ flags → (node : Node) → node_at old f ≡ Some node
        → KeepsStandard false (parts_at old f STANDARD_INFORMATION []) (parts_at new f STANDARD_INFORMATION []) }
    ensures marks { (old new : VolumeView) (f : ℕ) (times : List ℕ) (flags : ℕ) → SetsStandard old new f times flags → IsSound old
        → LooksOutside old → f ≢ VOLUME → bit_and flags SHOWN_FLAGS ≡ flags → (node : Node) → node_at old f ≡ Some node
        → (mask : ℕ) → bit_and hidden_flags mask ≡ mask → bit_and SHOWN_FLAGS mask ≡ 0
        → flag_of mask new f ≡ flag_of mask old f }
{}

/// Where the times and the DOS flags of a file were set, and told anew by the entries of all its names, a sound volume stays
/// sound (`sound`), and no cluster of it has two owners (`apart`). It reads as before, but that the file's node has them
/// (`reads`). Of its attributes one was rewritten, and the indexes of the directories in which it has a name (`rewrites`).
pub fn set_attributes_laws()
    ensures sound { (old new : VolumeView) (f : ℕ) (times : List ℕ) (flags : ℕ) (node : Node) → SetsAttributes old new f times flags
        → CanSet old f node → bit_and flags SHOWN_FLAGS ≡ flags → IsSound new }
    ensures apart { (old new : VolumeView) (f : ℕ) (times : List ℕ) (flags : ℕ) (node : Node) → SetsAttributes old new f times flags
        → CanSet old f node → bit_and flags SHOWN_FLAGS ≡ flags → LiesApart new }
    ensures reads { (old new : VolumeView) (f : ℕ) (times : List ℕ) (flags : ℕ) (node : Node) → SetsAttributes old new f times flags
        → CanSet old f node → bit_and flags SHOWN_FLAGS ≡ flags
        → read new ≡ record (read old) { nodes = finmap.insert (tree_nodes old) f (record node { times = times; flags = flags }) } }
    ensures rewrites { (old new : VolumeView) (f : ℕ) (times : List ℕ) (flags : ℕ) (node : Node)
        → SetsAttributes old new f times flags
        → CanSet old f node → bit_and flags SHOWN_FLAGS ≡ flags → Rewrites (is_set_key old f) old new }
{}

/// What the tree does not show stays: of the standard information of the file (`standard`), its DOS flags that are not shown
/// (`marks`), and of the keys of its entries (`rests`). Each entry of the file, in whichever directory, tells what it does, and
/// those of other files are as they were (`entries`).
pub fn set_entries_laws()
    ensures standard { (old new : VolumeView) (f : ℕ) (times : List ℕ) (flags : ℕ) (node : Node)
        → SetsAttributes old new f times flags
        → CanSet old f node → bit_and flags SHOWN_FLAGS ≡ flags
        → KeepsStandard false (parts_at old f STANDARD_INFORMATION []) (parts_at new f STANDARD_INFORMATION []) }
    ensures marks { (old new : VolumeView) (f : ℕ) (times : List ℕ) (flags : ℕ) (node : Node) → SetsAttributes old new f times flags
        → CanSet old f node → bit_and flags SHOWN_FLAGS ≡ flags → (mask : ℕ) → bit_and hidden_flags mask ≡ mask
        → bit_and SHOWN_FLAGS mask ≡ 0 → flag_of mask new f ≡ flag_of mask old f }
    ensures entries { (old new : VolumeView) (f : ℕ) (times : List ℕ) (flags : ℕ) (node : Node)
        → SetsAttributes old new f times flags
        → CanSet old f node → bit_and flags SHOWN_FLAGS ≡ flags → (dir : ℕ) (was now : List Item) → IsDirectory old dir
        → HasItems old dir was
        → HasItems new dir now → (before next : Tree) → KeepsEntries new before next (f ∷ []) [] was now }
    ensures rests { (old new : VolumeView) (f : ℕ) (times : List ℕ) (flags : ℕ) (node : Node) → SetsAttributes old new f times flags
        → CanSet old f node → bit_and flags SHOWN_FLAGS ≡ flags → (dir : ℕ) (was now : List Item) → IsDirectory old dir
        → HasItems old dir was
        → HasItems new dir now → KeepsRests new (f ∷ []) [] was now }
{}

/// The index of each directory, and of each file that has one, is as deep as it was (`depths`), and its root begins with the 16
/// bytes that it did (`heads`). So it is an index that was kept, whatever is to change (`indexes`).
pub fn set_indexes_laws()
    ensures heads { (old new : VolumeView) (f : ℕ) (times : List ℕ) (flags : ℕ) (node : Node) → SetsAttributes old new f times flags
        → CanSet old f node → bit_and flags SHOWN_FLAGS ≡ flags → (dir : ℕ) (was now : Part)
        → first_part (parts_at old dir INDEX_ROOT index_name) ≡ Some was
        → first_part (parts_at new dir INDEX_ROOT index_name) ≡ Some now
        → take 16 (unwrap_or (content_value now.content) []) ≡ take 16 (unwrap_or (content_value was.content) []) }
    ensures depths { (old new : VolumeView) (f : ℕ) (times : List ℕ) (flags : ℕ) (node : Node)
        → SetsAttributes old new f times flags
        → CanSet old f node → bit_and flags SHOWN_FLAGS ≡ flags → (dir : ℕ)
        → index_depth new (directory_index dir) ≡ index_depth old (directory_index dir) }
    ensures indexes { (old new : VolumeView) (f : ℕ) (times : List ℕ) (flags : ℕ) (node : Node)
        → SetsAttributes old new f times flags
        → CanSet old f node → bit_and flags SHOWN_FLAGS ≡ flags → (changes : List Change) (dir : ℕ)
        → KeepsIndexIfThere old new changes (directory_index dir) }
{}

/// Where the security id of a file that is shown was set, in a `$STANDARD_INFORMATION` that has a place for it, a sound volume stays sound,
/// and reads as before but for the id.
pub fn secured()
    ensures { (old new : VolumeView) (f id : ℕ) (node : Node) → id < 2 ^ 32 → CanSet old f node → SecuresStandard old new f id
        → IsSecured old new f id node }
{}
