//! A file whose attributes can be set, found by its path.
ghost use Rattle.std.specs.Prelude.{◌≡◌, ◌<◌, IfOk, IfSome, IsTrue, length, slice_set};
ghost use Rattle.std.specs.List.{list_any};
ghost use Rattle.vol_disk.specs.Contents.{WhereTold};
ghost use Rattle.vol_stage.specs.Staged.{image};
ghost use Rattle.mft_table.specs.InUse.{IsInUse};
ghost use Rattle.mft_table.specs.Mft.{mounted_of, stage_of, view};
ghost use Rattle.tree_model.specs.Facts.{IsVolumeOf, is_whole_table};
ghost use Rattle.tree_model.specs.Reading.{read};
ghost use Rattle.tree_model.specs.Ways.{stands_in_copied};
ghost use Rattle.file_room.specs.Answered.{Answered, with_ok};
ghost use Rattle.file_room.specs.Standings.{IsStanding};
ghost use Rattle.tree_edit.specs.Settable.{IsSettable, is_editable, settable};

use file_record::FileParts;
use file_room::{Standing, Stop, links_of, read_standard, resolve};
use mft_table::{Mft, Mounted};
use ntfs_def::lengths::RECORD;
use std::alloc::{AllocError, Global};
use tree_model::{Link, No, Path};
use vol_disk::Disk;

/// A file whose attributes can be set: its number, and its four times in the order of `$STANDARD_INFORMATION`.
#[derive(Clone, Copy, Debug)]
pub struct Settable {
    pub number: u64,
    pub times: [u64; 4],
}

impl Settable {
    /// The times of the file once its record is changed at this moment.
    pub fn times_at(&self, moment: u64) -> [u64; 4]
        ensures { result ≡ slice_set self.now.times 2 moment }
    {
        let mut times = self.times;
        times[2] = moment;
        times
    }
}

// The records below this one have copies.
const COPIED: u64 = 4;

// Whether one of these links stands in a record that has a copy.
fn any_in_copied(links: &[Link]) -> bool
    ensures { result ≡ list_any stands_in_copied links.now }
{
    'links: for link in links {
        if link.parent < COPIED {
            return true;
        }
    }
    false
}

/// Whether a file can be edited: it is one of the table, of which each record was written whole or not at all, and no name of it
/// stands in a record that has a copy.
pub fn can_edit(alloc: Global, mounted: &Mounted, file: &FileParts) -> Result<bool, AllocError>
    ensures { IfOk result (λ can. can ≡ is_editable mounted.now file.now) }
{
    if mounted.initialized % RECORD as u64 != 0 || file.number() >= mounted.records.count() {
        return Ok(false);
    }
    let links = links_of(alloc, file)?;
    Ok(!any_in_copied(links.as_slice()))
}

/// The file that a path leads to, where it can be edited. `last` is the directory in which the last path ended, before the call and
/// behind it.
///
/// # Errors
///
/// The refusal of the first component that is bad; `Unbuilt` where a record of the table was written in part, and where a name of the
/// file stands in a record that has a copy; `Memory`, and `Device` where the disk failed.
pub fn find_settable<D: Disk>(
    alloc: Global,
    mft: &mut Mft<'_, D>,
    last: &mut Option<Standing>,
    path: &Path,
) -> Result<Settable, Stop>
    requires volume { IsInUse D.Disk mft.old }
    requires image { WhereTold (image D.Disk (stage_of D.Disk mft.old)) (λ bytes. IsVolumeOf bytes (view D.Disk mft.old)) }
    requires last { IsTrue (view D.Disk mft.old).told → IfSome last.old (IsStanding (view D.Disk mft.old)) }
    ensures answered { Answered D.Disk mft.old mft.new (λ volume. settable (is_whole_table volume) (read volume) path.now)
        (with_ok (λ found. found.number) result) }
    ensures inside { IfOk result (λ found. found.number < length (mounted_of D.Disk mft.old).records) }
    ensures can { IfOk result (λ found. IsTrue (view D.Disk mft.old).told → IsSettable (view D.Disk mft.old) found) }
    ensures last { IsTrue (view D.Disk mft.old).told → IfSome last.new (IsStanding (view D.Disk mft.old)) }
{
    let reached = resolve(alloc, mft, last, path)?;
    let file = &reached.held.parts;
    if !can_edit(alloc, mft.mounted(), file)? {
        return Err(Stop::No(No::Unbuilt));
    }
    Ok(Settable {
        number: file.number(),
        times: read_standard(file).times,
    })
}
