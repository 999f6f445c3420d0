//! A file whose security id can be set, found by its path.
ghost use Rattle.std.specs.Prelude.{◌≡◌, ◌<◌, ℕ, Bool, IfOk, IfSome, IsTrue, length, slice_set};
ghost use Rattle.vol_disk.specs.Contents.{WhereTold};
ghost use Rattle.vol_stage.specs.Staged.{image};
ghost use Rattle.volume_def.specs.Sound.{IsSound};
ghost use Rattle.volume_def.specs.Table.{cluster_bytes};
ghost use Rattle.volume_def.specs.View.{VolumeView};
ghost use Rattle.mft_table.specs.InUse.{IsInUse};
ghost use Rattle.mft_table.specs.Mft.{MftReads, mounted_of, stage_of, view};
ghost use Rattle.tree_model.specs.Facts.{IsVolumeOf};
ghost use Rattle.file_room.specs.Answered.{Answered, Finds, with_ok};
ghost use Rattle.file_room.specs.Nodes.{IsNodeHeld, number_of};
ghost use Rattle.file_room.specs.Standings.{IsStanding};
ghost use Rattle.view_index.specs.Security.{TellsWhether};
ghost use Rattle.tree_edit.specs.Securable.{DecidesSecure, IsSecurable, TellsPlace, secure_wanted};
ghost use Rattle.tree_edit.specs.Writable.{IsMountedAs};

use crate::settable::can_edit;
use file_record::{BaseFile, FileParts};
use file_room::{Standing, Stop, find_part, read_standard, resolve};
use mft_table::{Mft, Mounted};
use ntfs_def::kinds::STANDARD_INFORMATION;
use ntfs_def::standard_information::LEN;
use std::alloc::Global;
use tree_model::{No, Path};
use view_index::find_security;
use vol_disk::Disk;

/// A file whose security id can be set.
#[derive(Clone, Copy, Debug)]
pub struct Securable {
    pub number: u64,
    /// The place, among the parts of the file, of its `$STANDARD_INFORMATION`.
    pub part: usize,
    /// The four times of the file, in the order of that attribute.
    pub times: [u64; 4],
    /// Its DOS flags that are shown.
    pub flags: u16,
}

impl Securable {
    /// The times of the file once its record is changed at this moment.
    pub fn times_at(&self, moment: u64) -> [u64; 4]
        ensures { result ≡ slice_set self.now.times 2 moment }
    {
        let mut times = self.times;
        times[2] = moment;
        times
    }
}

// Where the `$STANDARD_INFORMATION` of a file that is held stands among its parts, if that has a place for a security id.
fn place_for_id(file: &FileParts) -> Option<usize>
    ensures { TellsPlace file.now result }
{
    let Some(place) = find_part(file, STANDARD_INFORMATION, &[]) else {
        return None;
    };
    let attribute = file.attr(place);
    let Some(value) = attribute.value() else {
        return None;
    };
    if value.len() < LEN {
        return None;
    }
    Some(place)
}

// The file that is held, where its security id can be set.
fn securable_in(alloc: Global, mounted: &Mounted, held: &BaseFile) -> Result<Securable, No>
    ensures decides { (view : VolumeView) → IsMountedAs view mounted.now (cluster_bytes view.layout) → IsSound view
        → IsNodeHeld view held.now → DecidesSecure view held.now result }
    ensures inside { IfOk result (λ found. found.number < length mounted.now.records) }
{
    let file = &held.parts;
    match can_edit(alloc, mounted, file) {
        Ok(true) => match place_for_id(file) {
            Some(part) => {
                let standard = read_standard(file);
                let times = standard.times;
                Ok(Securable {
                    number: file.number(),
                    part,
                    times,
                    flags: standard.flags,
                })
            }
            None => Err(No::Unbuilt),
        },
        Ok(false) => Err(No::Unbuilt),
        Err(_) => Err(No::Memory),
    }
}

// Whether the volume has a security descriptor of an id.
fn is_described<D: Disk>(alloc: Global, mft: &mut Mft<'_, D>, id: u32) -> Result<bool, Stop>
    requires volume { IsInUse D.Disk mft.old }
    ensures { Finds D.Disk mft.old mft.new (λ volume there. TellsWhether volume id there) result }
{
    match find_security(alloc, mft, id) {
        Ok(there) => Ok(there),
        Err(no) => Err(Stop::from(no)),
    }
}

/// The file that a path leads to, where its security id can be set to this one. `last` is the directory in which the last path ended,
/// before the call and behind it.
///
/// # Errors
///
/// The refusal of the first component that is bad; `NoSecurity`, where the volume has no descriptor of the id; `Unbuilt`, where the file
/// cannot be edited, or its `$STANDARD_INFORMATION` has no place for an id; `Memory`, and `Device` where the disk failed.
pub fn find_securable<D: Disk>(
    alloc: Global,
    mft: &mut Mft<'_, D>,
    last: &mut Option<Standing>,
    path: &Path,
    id: u32,
) -> Result<Securable, Stop>
    requires volume { IsInUse D.Disk mft.old }
    requires image { WhereTold (image D.Disk (stage_of D.Disk mft.old)) (λ bytes. IsVolumeOf bytes (view D.Disk mft.old)) }
    requires last { IsTrue (view D.Disk mft.old).told → IfSome last.old (IsStanding (view D.Disk mft.old)) }
    ensures answered { (described : Bool) → (IsTrue (view D.Disk mft.old).told → TellsWhether (view D.Disk mft.old) id described)
        → Answered D.Disk mft.old mft.new (λ volume. secure_wanted volume described path.now) (with_ok (λ found. found.number) result) }
    ensures reads { (reads : ℕ) × MftReads D.Disk mft.old mft.new reads }
    ensures can { IfOk result (λ found. IsTrue (view D.Disk mft.old).told → IsSecurable (view D.Disk mft.old) found) }
    ensures inside { IfOk result (λ found. found.number < length (mounted_of D.Disk mft.old).records) }
    ensures last { IsTrue (view D.Disk mft.old).told → IfSome last.new (IsStanding (view D.Disk mft.old)) }
{
    let reached = resolve(alloc, mft, last, path)?;
    if !is_described(alloc, mft, id)? {
        return Err(Stop::No(No::NoSecurity));
    }
    match securable_in(alloc, mft.mounted(), &reached.held) {
        Ok(found) => Ok(found),
        Err(refused) => Err(Stop::No(refused)),
    }
}
