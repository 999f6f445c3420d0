//! A law of volumes in use, with nothing to run.
ghost use Rattle.volume_def.specs.Sound.{IsSound};
ghost use Rattle.volume_def.specs.View.{VolumeView};
ghost use Rattle.view_index.specs.Security.{IsReadableSecurity};

/// The security descriptors of a sound volume can be read, as `descriptor` and `find_security` ask.
pub fn security_law()
    ensures { (view : VolumeView) → IsSound view → IsReadableSecurity view }
{}
