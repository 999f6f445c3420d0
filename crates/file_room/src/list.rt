//! What an attribute list would take that names all attributes of a file.
ghost use Rattle.std.specs.Prelude.{◌≡◌, ◌≤◌, ◌+◌, ◌*◌, ◌/◌, ◌^◌, ℕ, if◌then◌else◌, length, max};
ghost use Rattle.ntfs_def.specs.Rounded.{up_to_8};
ghost use Rattle.volume_def.specs.Files.{part_of};
ghost use Rattle.volume_def.specs.ListsClause.{is_list};
ghost use Rattle.volume_def.specs.Room.{list_entry_len, longest_name};
ghost use Rattle.attr_view.specs.View.{attribute_of};
ghost use Rattle.tree_read.specs.Held.{parts_held};
ghost use Rattle.file_room.specs.Asked.{list_len_by};

use attr_view::AttrView;
use ntfs_def::kinds::ATTRIBUTE_LIST;
use tree_read::FileParts;

/// What such a list would take.
#[derive(Clone, Copy, Debug)]
pub struct ListRoom {
    /// Its bytes.
    pub len: u64,
    /// The units of the longest name of an attribute.
    pub name_units: u64,
}

// The bytes of an entry with so many bytes of a name.
fn entry_len(name: u64) -> u64
    requires { name ≤ 1024 }
    ensures { result ≡ up_to_8 (26 + name) }
{
    (26 + name + 7) / 8 * 8
}

// The bytes of the entry that names an attribute. A list does not name itself.
fn listed_len(attribute: &AttrView<'_>) -> u64
    ensures len { (n : ℕ) → result ≡ (if is_list (part_of n (attribute_of attribute.now)) then 0
        else list_entry_len (part_of n (attribute_of attribute.now))) }
    ensures few { result ≤ 1056 }
{
    if attribute.kind() == ATTRIBUTE_LIST {
        return 0;
    }
    entry_len(attribute.name().len() as u64)
}

// The units of the name of an attribute.
fn name_units(attribute: &AttrView<'_>) -> u64
    ensures units { result ≡ length (attribute_of attribute.now).name / 2 }
    ensures few { result ≤ 512 }
{
    attribute.name().len() as u64 / 2
}

/// What a list would take that names all attributes of a file that is held.
pub fn list_room(file: &FileParts) -> ListRoom
    ensures len { result.len ≡ list_len_by (parts_held file.now) }
    ensures units { result.name_units ≡ longest_name (parts_held file.now) }
    ensures short { result.len ≤ 2 ^ 43 }
    ensures few { result.name_units ≤ 512 }
{
    let mut len = 0;
    let mut units = 0;
    let mut attributes = file.attributes();
    for _place in 0..file.count() {
        let Some(attribute) = attributes.next() else {
            return ListRoom {
                len,
                name_units: units,
            };
        };
        len += listed_len(&attribute);
        units = units.max(name_units(&attribute));
    }
    ListRoom {
        len,
        name_units: units,
    }
}
