//! The word `format`: a new volume.
ghost use Rattle.shell.specs.Format.{FormatEnds};
ghost use Rattle.shell.specs.World.{world};

use crate::answer::print;
use crate::ending::Ending;
use crate::text::formatted_text;
use std::alloc::Global;
use vol_disk::{Disk, Sink, Source};
use volume_format::{FormatNo, FormatOptions, format};

/// Makes a new volume on the disk and prints how many clusters it has, or prints that an option is out of
/// its range.
pub fn make_volume<D: Disk, S: Source, K: Sink>(
    alloc: Global,
    disk: &mut D,
    options: &FormatOptions,
    script: &S,
    out: &mut K,
) -> Ending
    ensures { FormatEnds options.now result
        (world D.Disk S.Source K.Sink disk.old script.now out.old) (world D.Disk S.Source K.Sink disk.new script.now out.new) }
{
    match format(alloc, disk, options) {
        Ok(clusters) => print(out, formatted_text(clusters).as_slice(), Ending::Done),
        Err(FormatNo::Options) => print(out, b"refused options\n", Ending::Refused),
        Err(FormatNo::Device) => Ending::Device,
        Err(FormatNo::Memory) => Ending::Memory,
    }
}
