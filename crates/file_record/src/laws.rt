//! Laws with nothing to run.
ghost use Rattle.volume_def.specs.Readable.{IsFile, IsReadableVolume};
ghost use Rattle.volume_def.specs.View.{VolumeView};
ghost use Rattle.file_record.specs.declared.parts.FileParts.{FileParts};
ghost use Rattle.file_record.specs.Held.{file_number};
ghost use Rattle.file_record.specs.Links.{HoldsBase};
ghost use Rattle.file_record.specs.Written.{IsWholeFile};

/// A whole file of a volume whose files can be read is held with its base record, which has its $STANDARD_INFORMATION.
pub fn base_law()
    ensures { (view : VolumeView) (file : FileParts) → IsReadableVolume view → IsFile view (file_number file)
        → IsWholeFile view file → HoldsBase file }
{}
