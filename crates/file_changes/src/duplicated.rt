//! What a loaded file shows of itself, as far as the entries of its names repeat it.
ghost use Rattle.std.specs.Prelude.{◌≡◌, []};
ghost use Rattle.ntfs_def.specs.declared.kinds.TheConstants.{DATA};
ghost use Rattle.volume_def.specs.Files.{content_of};
ghost use Rattle.volume_def.specs.Values.{first_part};
ghost use Rattle.attr_view.specs.View.{attribute_of};
ghost use Rattle.sparse_io.specs.First.{attribute_held};
ghost use Rattle.file_record.specs.Held.{parts_held};
ghost use Rattle.edit_def.specs.Items.{content_sizes, stream_sizes};
ghost use Rattle.file_changes.specs.Duplicated.{IsToldBy};

use attr_view::AttrView;
use dir_index::DuplicatedInformation;
use file_record::FileParts;
use file_room::read_standard;
use ntfs_def::kinds::DATA;
use sparse_io::find_first;

// The allocated and the real size of what an attribute holds: of a value its length up to a multiple of 8, and its length.
fn sizes_of(attribute: &AttrView<'_>) -> (u64, u64)
    ensures { result ≡ content_sizes (content_of (attribute_of attribute.now).body) }
{
    match attribute.sizes() {
        Some(sizes) => (sizes.allocated, sizes.real),
        None => {
            let len = attribute.value().unwrap_or(&[]).len() as u64;
            ((len + 7) / 8 * 8, len)
        }
    }
}

// The same of the unnamed stream of a file; zeros where it has none.
fn unnamed_sizes(file: &FileParts) -> (u64, u64)
    ensures { result ≡ stream_sizes (first_part (attribute_held file.now DATA [])) }
{
    match find_first(file, DATA, &[]) {
        None => (0, 0),
        Some(first) => sizes_of(&file.attr(first.index)),
    }
}

/// What the entries of a file that is held repeat of it.
pub fn duplicated(file: &FileParts) -> DuplicatedInformation
    ensures { IsToldBy (parts_held file.now) result }
{
    let standard = read_standard(file);
    let (allocated, real) = unnamed_sizes(file);
    let times = standard.times;
    DuplicatedInformation {
        times,
        allocated,
        real,
        flags: standard.flags,
    }
}
