//! Whether a file has an attribute list.
ghost use Rattle.std.specs.Prelude.{◌≡◌};
ghost use Rattle.std.specs.List.{list_any};
ghost use Rattle.volume_def.specs.ListsClause.{is_list};
ghost use Rattle.file_record.specs.Held.{parts_held};

use file_record::FileParts;
use ntfs_def::kinds::ATTRIBUTE_LIST;

/// Whether a file that is held has an attribute list.
pub fn has_list(file: &FileParts) -> bool
    ensures { result ≡ list_any is_list (parts_held file.now) }
{
    let mut attributes = file.attributes();
    for index in 0..file.count() {
        let Some(attribute) = attributes.next() else {
            return false;
        };
        if attribute.kind() == ATTRIBUTE_LIST {
            return true;
        }
    }
    false
}
