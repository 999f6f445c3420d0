//! What commands show of security descriptors: `sd`.
ghost use Rattle.std.specs.Prelude.{ℕ, List, Option};
ghost use Rattle.mft_table.specs.InUse.{IsInUse};
ghost use Rattle.tree_model.specs.Facts.{TellsDescriptor};
ghost use Rattle.tree_read.specs.Answered.{Gives, Says};
ghost use Rattle.tree_ops.specs.Wanted.{sd_wanted};

use mft_table::Mft;
use name_changes::descriptor;
use std::alloc::Global;
use tree_model::{Answer, No};
use tree_read::Stop;
use vol_disk::Disk;

/// `sd`: the bytes of the security descriptor of an id, as the volume stores them.
///
/// # Errors
///
/// `NoSecurity` exactly where the volume has none of this id; `Memory` and `Device`.
pub fn sd<D: Disk>(alloc: Global, mft: &mut Mft<'_, D>, id: u32) -> Result<Answer, Stop>
    requires volume { IsInUse D.Disk mft.old }
    ensures told { Gives D.Disk mft.old mft.new (λ volume given. (found : Option (List ℕ)) → TellsDescriptor volume id found
        → Says (sd_wanted found) given) result }
{
    match descriptor(alloc, mft, id) {
        Ok(Some(bytes)) => Ok(Answer::Sd(bytes)),
        Ok(None) => Err(Stop::No(No::NoSecurity)),
        Err(no) => Err(Stop::from(no)),
    }
}
