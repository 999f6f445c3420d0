//! The directory in which a new name would stand.
ghost use Rattle.std.specs.Prelude.{◌≡◌, Contains, IfOk, IfSome, IsTrue, false};
ghost use Rattle.mft_table.specs.InUse.{IsInUse};
ghost use Rattle.mft_table.specs.Mft.{view};
ghost use Rattle.tree_model.specs.Cases.{is_bad_name};
ghost use Rattle.tree_model.specs.Reading.{read};
ghost use Rattle.tree_read.specs.Answered.{Answered, Finds, with_ok};
ghost use Rattle.tree_read.specs.Nodes.{number_of};
ghost use Rattle.tree_read.specs.Standings.{IsStanding};
ghost use Rattle.tree_read.specs.Walks.{IsDirectoryHeld};
ghost use Rattle.name_places.specs.Places.{has_same, place_of, place_wanted};

use crate::spelling::is_bad_name;
use mft_table::Mft;
use std::alloc::Global;
use tree_model::{No, Path};
use tree_read::{BaseFile, Standing, Stop, enter, lookup_in};
use vol_bytes::Name;
use vol_disk::Disk;

/// A directory that is shown, with the names that lead to it, and a name that none of its links has.
#[derive(Drop)]
pub struct NewPlace<'p> {
    pub standing: Standing,
    pub name: &'p Name,
}

// Whether a link of a directory that is shown, a hidden one too, has the same name, in whichever case.
fn is_there<D: Disk>(
    alloc: Global,
    mft: &mut Mft<'_, D>,
    dir: &BaseFile,
    name: &Name,
) -> Result<bool, Stop>
    requires volume { IsInUse D.Disk mft.old }
    requires directory { IsTrue (view D.Disk mft.old).told → IsDirectoryHeld (view D.Disk mft.old) dir.now }
    ensures { Finds D.Disk mft.old mft.new (λ volume there. there ≡ has_same (read volume) (number_of dir.now) name.now) result }
{
    let found = lookup_in(alloc, mft, &dir.parts, name)?;
    Ok(found.is_some())
}

/// Where a path puts a new name: each component before the last one leads through a directory that is shown and has no reparse point,
/// and the last one is a name that may come there. `last` is the directory in which the last path ended.
///
/// # Errors
///
/// The refusal of the first component before the last one that is bad; `BadName`; `Exists`, also for the root, whose path has no name;
/// `Memory`, and `Device` where the disk failed.
pub fn find_place<'p, D: Disk>(
    alloc: Global,
    mft: &mut Mft<'_, D>,
    last: Option<Standing>,
    path: &'p Path,
) -> Result<NewPlace<'p>, Stop>
    requires volume { IsInUse D.Disk mft.old }
    requires last { IsTrue (view D.Disk mft.old).told → IfSome last (IsStanding (view D.Disk mft.old)) }
    ensures answered { Answered D.Disk mft.old mft.new (λ volume. place_wanted (read volume) path.now) (with_ok place_of result) }
    ensures standing { IfOk result (λ place. IsTrue (view D.Disk mft.old).told → IsStanding (view D.Disk mft.old) place.standing) }
    ensures among { IfOk result (λ place. Contains path.now place.name.now) }
    ensures good { IfOk result (λ place. is_bad_name place.name.now ≡ false) }
{
    let Some((name, names)) = path.as_slice().split_last() else {
        return Err(Stop::No(No::Exists));
    };
    let standing = enter(alloc, mft, last, names)?;
    if is_bad_name(name.as_slice()) {
        return Err(Stop::No(No::BadName));
    }
    if is_there(alloc, mft, &standing.directory, name)? {
        return Err(Stop::No(No::Exists));
    }
    Ok(NewPlace { standing, name })
}
