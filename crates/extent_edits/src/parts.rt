//! The runs of a part of a file that is held.
ghost use Rattle.std.specs.Prelude.{◌≡◌, ◌<◌, IfOk, length};
ghost use Rattle.volume_def.specs.Files.{content_runs};
ghost use Rattle.file_record.specs.Held.{parts_held};
ghost use Rattle.file_record.specs.Written.{PartHeld};

use crate::attribute::runs_of;
use data_runs::RunList;
use file_record::FileParts;
use std::alloc::{AllocError, Global};

/// The runs of part `i` of a file that is held, `None` exactly where it is a value or its text is no run list.
///
/// # Errors
///
/// Want of memory for the list alone.
pub fn runs_of_part(
    alloc: Global,
    file: &FileParts,
    i: usize,
) -> Result<Option<RunList>, AllocError>
    requires { i < length (parts_held file.now) }
    ensures { IfOk result (λ found. PartHeld file.now i (λ part. found ≡ content_runs part.content)) }
{
    runs_of(alloc, &file.attr(i))
}
