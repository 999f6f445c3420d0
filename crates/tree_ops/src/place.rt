//! Where the mark and the log of a volume lie that is to be edited.
ghost use Rattle.std.specs.Prelude.{◌≡◌, ℕ, IfErr, IfOk, IsTrue};
ghost use Rattle.mft_table.specs.Mft.{MftReads, faults_of, view};
ghost use Rattle.tree_read.specs.Answered.{Counts, IsFailed};
ghost use Rattle.tree_ops.specs.Edits.{CanEdit, IsPlaced};

use made_done::{find_flag, find_log};
use mark_write::{Flag, Span};
use mft_table::Mft;
use std::alloc::Global;
use tree_model::No;
use tree_read::Stop;
use vol_disk::Disk;

/// Where the mark lies, whether it is set, and where the log lies that is to be emptied before the first edit.
#[derive(Drop)]
pub struct MarkPlace {
    pub flag: Flag,
    pub marked: bool,
    pub spans: Vec<Span>,
}

/// Where the mark and the log lie. A volume that an edit was done on is marked, and nothing of its log is emptied again. It reads alone.
///
/// # Errors
///
/// `Device` where the disk failed, and `Memory`.
pub fn mark_place<D: Disk>(
    alloc: Global,
    mft: &mut Mft<'_, D>,
    mark: Option<Flag>,
) -> Result<MarkPlace, Stop>
    requires can { CanEdit D.Disk mft.old mark }
    ensures placed { IfOk result (IsPlaced D.Disk mft.old mark) }
    ensures failed { IsTrue (view D.Disk mft.old).told → IfErr result IsFailed }
    ensures reads { (reads : ℕ) × MftReads D.Disk mft.old mft.new reads }
    ensures counts { Counts result (faults_of D.Disk mft.old) (faults_of D.Disk mft.new) }
{
    if let Some(flag) = mark {
        let spans = Vec::new(alloc);
        return Ok(MarkPlace {
            flag,
            marked: true,
            spans,
        });
    }
    match find_flag(mft) {
        Ok(Some(flag)) => {
            let log = find_log(alloc, mft)?;
            Ok(MarkPlace {
                flag,
                marked: false,
                spans: log,
            })
        }
        // On no sound volume.
        Ok(None) => Err(Stop::No(No::Unbuilt)),
        Err(_) => Err(Stop::Device),
    }
}
