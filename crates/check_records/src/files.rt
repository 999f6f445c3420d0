//! Files that are read on the way: why one is not.
ghost use Rattle.std.specs.Prelude.{ℕ};
ghost use Rattle.mft_table.specs.MountNos.{CountsMount};
ghost use Rattle.file_record.specs.FileNos.{CountsNo, IsReadNo};
ghost use Rattle.clause_order.specs.Refusals.{IsFault};

use file_record::FileNo;
use mft_table::MountNo;

/// Why a volume is not taken into use whose file is not read.
pub fn mount_no_of(no: FileNo) -> MountNo
    ensures fault { IsReadNo no → IsFault result }
    ensures counts { (before after : ℕ) → IsReadNo no → CountsNo before after no → CountsMount before after result }
{
    match no {
        FileNo::Device => MountNo::Device,
        _ => MountNo::Memory,
    }
}
