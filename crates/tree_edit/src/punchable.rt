//! A stream that is a value, of which bytes are to be punched, found by the path of its file.
ghost use Rattle.std.specs.Prelude.{◌≡◌, ◌≤◌, ◌<◌, ◌+◌, ◌^◌, ℕ, IfOk, IfSome, IsTrue, List, length, true};
ghost use Rattle.vol_disk.specs.Contents.{WhereTold};
ghost use Rattle.vol_stage.specs.Staged.{image};
ghost use Rattle.volume_def.specs.Sound.{IsSound};
ghost use Rattle.volume_def.specs.Table.{cluster_bytes};
ghost use Rattle.volume_def.specs.View.{VolumeView};
ghost use Rattle.mft_table.specs.InUse.{IsInUse};
ghost use Rattle.mft_table.specs.Mft.{mounted_of, stage_of, view};
ghost use Rattle.sparse_io.specs.Held.{IsStream};
ghost use Rattle.tree_model.specs.Facts.{IsVolumeOf};
ghost use Rattle.file_room.specs.Answered.{Answered, with_ok};
ghost use Rattle.file_room.specs.Nodes.{IsNodeHeld, number_of, parts_in};
ghost use Rattle.file_room.specs.Standings.{IsStanding};
ghost use Rattle.tree_edit.specs.Punchable.{IsPunchable, can_punch, punch_in, punch_wanted};
ghost use Rattle.tree_edit.specs.Writable.{DecidesEdit, DecidesOver, GivesBack, IsMountedAs};
ghost use Rattle.tree_edit.specs.declared.writable.Way.TheVariants as way;

use crate::settable::can_edit;
use crate::writable::{Way, Writable, given, kept_from_writing};
use file_record::BaseFile;
use file_room::{Standing, Stop, is_of_directory, plain_content, resolve};
use mft_table::{Mft, Mounted};
use share_table::Opens;
use sparse_io::{FoundStream, look_at_names};
use std::alloc::{AllocError, Global};
use tree_model::{No, Path, is_wide};
use vol_bytes::Name;
use vol_disk::Disk;

/// Whether the file can be edited, and its stream is a value.
pub fn is_value(
    alloc: Global,
    mounted: &Mounted,
    held: &BaseFile,
    stream: &FoundStream,
) -> Result<bool, AllocError>
    requires part { stream.now.part < length (parts_in held.now) }
    ensures is { IfOk result (λ is. (view : VolumeView) → IsMountedAs view mounted.now (cluster_bytes view.layout) → IsSound view
        → IsNodeHeld view held.now → (name : List ℕ) → IsStream view held.now.parts name stream.now
        → is ≡ can_punch view name (number_of held.now)) }
    ensures inside { IfOk result (λ is. is ≡ true → number_of held.now < length mounted.now.records) }
{
    if !can_edit(alloc, mounted, &held.parts)? {
        return Ok(false);
    }
    look_at_names(&held.parts);
    let attribute = held.parts.attr(stream.part);
    Ok(attribute.value().is_some())
}

// The stream that was found, where it is a value.
fn give_value(
    alloc: Global,
    mounted: &Mounted,
    held: BaseFile,
    stream: FoundStream,
) -> Result<Writable, No>
    requires part { stream.part < length (parts_in held) }
    ensures decides { (view : VolumeView) → IsMountedAs view mounted.now (cluster_bytes view.layout) → IsSound view → IsNodeHeld view held
        → (name : List ℕ) → IsStream view held.parts name stream → DecidesOver (can_punch view name (number_of held)) result }
    ensures gives { IfOk result (λ found. GivesBack found held stream way.InPlace) }
    ensures inside { IfOk result (λ found. number_of found.held < length mounted.now.records) }
{
    match is_value(alloc, mounted, &held, &stream) {
        Ok(true) => Ok(given(held, stream, Way::InPlace)),
        Ok(false) => Err(No::Unbuilt),
        Err(_) => Err(No::Memory),
    }
}

// The stream of a file of which so many bytes can be punched, where no open of the file keeps them from it.
fn punchable_in(
    alloc: Global,
    mounted: &Mounted,
    opens: &Opens,
    held: BaseFile,
    name: &Name,
    from: u64,
    len: u64,
) -> Result<Writable, No>
    ensures decides { (view : VolumeView) → IsMountedAs view mounted.now (cluster_bytes view.layout) → IsSound view → IsNodeHeld view held
        → DecidesEdit (λ way file. can_punch view name.now file) (punch_in view opens.now name.now from len (number_of held)) view held
        name.now result }
    ensures place { IfOk result (λ found. found.stream.part < length (parts_in found.held)) }
    ensures near { IfOk result (λ found. from + len ≤ 2 ^ 40) }
    ensures inside { IfOk result (λ found. number_of found.held < length mounted.now.records) }
{
    if is_of_directory(&held, name) {
        return Err(No::IsDir);
    }
    let stream = plain_content(alloc, &held, &mounted.upcase, name)?;
    if is_wide(from, len) {
        return Err(No::TooBig);
    }
    if let Some(refused) = kept_from_writing(opens, held.parts.number()) {
        return Err(refused);
    }
    give_value(alloc, mounted, held, stream)
}

/// The stream of the file that a path leads to, where it is a value, of which so many bytes can be punched. `last` is the directory in
/// which the last path ended, before the call and behind it.
///
/// # Errors
///
/// The refusal of the first component that is bad; `IsDir`, `NoStream`, `Packed` and `TooBig`; `Shared`, where an open of the file does not
/// share writing; `Unbuilt`, where the file cannot be edited, or the stream is no value; `Memory`, and `Device` where the disk failed.
pub fn find_punchable<D: Disk>(
    alloc: Global,
    mft: &mut Mft<'_, D>,
    last: &mut Option<Standing>,
    opens: &Opens,
    path: &Path,
    name: &Name,
    from: u64,
    len: u64,
) -> Result<Writable, Stop>
    requires volume { IsInUse D.Disk mft.old }
    requires image { WhereTold (image D.Disk (stage_of D.Disk mft.old)) (λ bytes. IsVolumeOf bytes (view D.Disk mft.old)) }
    requires last { IsTrue (view D.Disk mft.old).told → IfSome last.old (IsStanding (view D.Disk mft.old)) }
    ensures answered { Answered D.Disk mft.old mft.new (λ volume. punch_wanted volume opens.now path.now name.now from len)
        (with_ok (λ found. number_of found.held) result) }
    ensures can { IfOk result (λ found. IsTrue (view D.Disk mft.old).told → IsPunchable (view D.Disk mft.old) found name.now) }
    ensures part { IfOk result (λ found. found.stream.part < length (parts_in found.held)) }
    ensures near { IfOk result (λ found. from + len ≤ 2 ^ 40) }
    ensures inside { IfOk result (λ found. number_of found.held < length (mounted_of D.Disk mft.old).records) }
    ensures last { IsTrue (view D.Disk mft.old).told → IfSome last.new (IsStanding (view D.Disk mft.old)) }
{
    let reached = resolve(alloc, mft, last, path)?;
    match punchable_in(alloc, mft.mounted(), opens, reached.held, name, from, len) {
        Ok(found) => Ok(found),
        Err(refused) => Err(Stop::No(refused)),
    }
}
