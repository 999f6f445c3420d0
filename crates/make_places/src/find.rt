//! The directory into which a new file, or a new directory, can be made, with its name, found by its path.
ghost use Rattle.std.specs.Prelude.{◌≡◌, ◌≤◌, ◌<◌, ℕ, All, IfOk, IfSome, IsTrue, List, None, Ok, length};
ghost use Rattle.vol_disk.specs.Contents.{WhereTold};
ghost use Rattle.vol_stage.specs.Staged.{image};
ghost use Rattle.mft_table.specs.InUse.{IsInUse};
ghost use Rattle.mft_table.specs.Mft.{mounted_of, stage_of, view};
ghost use Rattle.tree_model.specs.Facts.{IsVolumeOf};
ghost use Rattle.tree_model.specs.Reading.{read};
ghost use Rattle.tree_edit.specs.Answered.{Answered, Gives, Says, with_ok};
ghost use Rattle.tree_edit.specs.Nodes.{number_of};
ghost use Rattle.tree_edit.specs.Standings.{IsStanding, number_within};
ghost use Rattle.tree_edit.specs.Walks.{IsDirectoryHeld};
ghost use Rattle.name_places.specs.Places.{place_of, place_wanted};
ghost use Rattle.tree_edit.specs.Asked.{has_room};
ghost use Rattle.make_places.specs.Makes.{HasFreeRecord, IsMakeable, IsToMake, make_decided, make_wanted, room_to_make};

use crate::make::can_make;
use file_makes::index_depth;
use file_record::BaseFile;
use mft_table::Mft;
use name_places::{NewPlace, find_place};
use std::alloc::Global;
use tree_edit::{Standing, Stop, ask_to_make};
use tree_model::{No, Path};
use vol_disk::Disk;

// The units of a name have 16 bits, which its clause tells the proofs; no work.
fn look_at_units(name: &[u16])
    ensures { All (λ unit. unit < 65536) name.now }
{}

// The same as `find_to_make`, before room is asked for.
fn find_makeable<'p, D: Disk>(
    alloc: Global,
    mft: &mut Mft<'_, D>,
    last: Option<Standing>,
    path: &'p Path,
) -> Result<NewPlace<'p>, Stop>
    requires volume { IsInUse D.Disk mft.old }
    requires image { WhereTold (image D.Disk (stage_of D.Disk mft.old)) (λ bytes. IsVolumeOf bytes (view D.Disk mft.old)) }
    requires last { IsTrue (view D.Disk mft.old).told → IfSome last (IsStanding (view D.Disk mft.old)) }
    requires named { All (λ (name : List ℕ). 1 ≤ length name) path.now }
    ensures answered { Answered D.Disk mft.old mft.new (λ volume. make_decided volume path.now)
        (with_ok (λ found. number_within found.standing) result) }
    ensures place { IfOk result (λ found. IsTrue (view D.Disk mft.old).told
        → place_wanted (read (view D.Disk mft.old)) path.now ≡ Ok (place_of found)) }
    ensures can { IfOk result (λ found. IsTrue (view D.Disk mft.old).told → IsMakeable (view D.Disk mft.old) found) }
    ensures inside { IfOk result (λ found. number_within found.standing < length (mounted_of D.Disk mft.old).records) }
    ensures some { IfOk result (λ found. 1 ≤ length found.name.now) }
    ensures few { IfOk result (λ found. length found.name.now ≤ 255) }
    ensures free { IfOk result (λ found. HasFreeRecord (mounted_of D.Disk mft.old)) }
{
    let place = find_place(alloc, mft, last, path)?;
    if !can_make(alloc, mft, &place.standing.directory, place.name.as_slice())? {
        return Err(Stop::No(No::Unbuilt));
    }
    look_at_units(place.name.as_slice());
    Ok(place)
}

// Asks for the room of a new file, or of a new directory, in a directory that is shown.
fn ask_for_file<D: Disk>(
    alloc: Global,
    mft: &mut Mft<'_, D>,
    dir: &BaseFile,
    directory: bool,
) -> Result<(), Stop>
    requires volume { IsInUse D.Disk mft.old }
    requires held { IsTrue (view D.Disk mft.old).told → IsDirectoryHeld (view D.Disk mft.old) dir.now }
    ensures asked { Gives D.Disk mft.old mft.new (λ volume given.
        Says (has_room (room_to_make volume directory (number_of dir.now))) given) result }
{
    match index_depth(alloc, mft, &dir.parts) {
        Ok(depth) => ask_to_make(mft, &dir.parts, depth, directory),
        Err(no) => Err(Stop::from(no)),
    }
}

/// The directory into which a new file, or a new directory, can be made, with its name: no refusal for room is due, and a record is free.
/// `last` is the directory in which the last path ended, before the call; behind it there is none.
///
/// # Errors
///
/// The refusal of the first component before the last one that is bad; `BadName`; `Exists`; `Unbuilt`, where a record of the table was
/// written in part, a name of the directory, or of the table's file, stands in a record that has a copy, neither the record of the
/// directory's index in which the search for the name ends has room for its entry nor a root that leads to no record, in a directory
/// without an attribute list, or no record is free that was written and has a flag that can be stored, as where none is free;
/// `TooManyParts`, `TooDeep`, `MftFull` and `NoRoom`; `Memory`; and `Device` where the disk failed.
pub fn find_to_make<'p, D: Disk>(
    alloc: Global,
    mft: &mut Mft<'_, D>,
    last: &mut Option<Standing>,
    path: &'p Path,
    directory: bool,
) -> Result<NewPlace<'p>, Stop>
    requires volume { IsInUse D.Disk mft.old }
    requires image { WhereTold (image D.Disk (stage_of D.Disk mft.old)) (λ bytes. IsVolumeOf bytes (view D.Disk mft.old)) }
    requires last { IsTrue (view D.Disk mft.old).told → IfSome last.old (IsStanding (view D.Disk mft.old)) }
    requires named { All (λ (name : List ℕ). 1 ≤ length name) path.now }
    ensures answered { Answered D.Disk mft.old mft.new (λ volume. make_wanted volume directory path.now)
        (with_ok (λ found. number_within found.standing) result) }
    ensures place { IfOk result (λ found. IsTrue (view D.Disk mft.old).told
        → place_wanted (read (view D.Disk mft.old)) path.now ≡ Ok (place_of found)) }
    ensures can { IfOk result (λ found. IsTrue (view D.Disk mft.old).told
        → IsToMake directory (view D.Disk mft.old) (mounted_of D.Disk mft.old) found) }
    ensures inside { IfOk result (λ found. number_within found.standing < length (mounted_of D.Disk mft.old).records) }
    ensures some { IfOk result (λ found. 1 ≤ length found.name.now) }
    ensures few { IfOk result (λ found. length found.name.now ≤ 255) }
    ensures free { IfOk result (λ found. HasFreeRecord (mounted_of D.Disk mft.old)) }
    ensures forgets { last.new ≡ None }
{
    let place = find_makeable(alloc, mft, last.take(), path)?;
    ask_for_file(alloc, mft, &place.standing.directory, directory)?;
    Ok(place)
}
