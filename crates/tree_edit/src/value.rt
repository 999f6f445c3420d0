//! Whether a value can have so many bytes in the record that holds it.
ghost use Rattle.std.specs.Prelude.{◌≡◌, ◌<◌, ◌+◌, ◌^◌, length};
ghost use Rattle.ntfs_def.specs.Attribute.{attributes};
ghost use Rattle.file_record.specs.Held.{RecordHeld, parts_held};
ghost use Rattle.tree_edit.specs.Change.{TellsFit, fits_in, has_room};

use file_record::{FileParts, PartPlace};

// Whether a value of `had` bytes can have so many, in a record of which so many are free.
fn has_room(free: usize, had: usize, size: u64) -> bool
    requires { had + free < 2 ^ 64 }
    ensures { result ≡ has_room free had size }
{
    let most = (had + free) as u64;
    size <= had as u64 || (most >= 7 && size <= most - 7)
}

/// Whether an attribute of a file that is held is a value that can have so many bytes in its record: no more than it has, or the record has
/// room for them.
pub fn fits_at(file: &FileParts, place: PartPlace, size: u64) -> bool
    requires { RecordHeld file.now place.record (λ held. place.attribute < length (attributes held.block)) }
    ensures { RecordHeld file.now place.record (λ held. result ≡ fits_in held.block place.attribute size) }
{
    let held = &file.records()[place.record];
    match held.view().attr(place.attribute).value() {
        Some(value) => has_room(held.free_bytes(), value.len(), size),
        None => false,
    }
}

/// Whether part `i` of a file that is held is such a value.
pub fn fits_value(file: &FileParts, i: usize, size: u64) -> bool
    requires { i < length (parts_held file.now) }
    ensures { TellsFit file.now i size result }
{
    fits_at(file, file.place_of(i), size)
}
