//! The name and the version of a volume, in its record 3.
ghost use Rattle.std.specs.Prelude.{◌≡◌, ◌++◌, IfOk, OnOk};
ghost use Rattle.std.specs.Option.{option_copied};
ghost use Rattle.volume_def.specs.VolumeRecord.{label_units, version_in};
ghost use Rattle.attr_view.specs.View.{attributes_of};
ghost use Rattle.shell.specs.Label.{volume_report};
ghost use Rattle.shell.specs.Answers.{report_of};
ghost use Rattle.shell.specs.Text.{label_text, name_line, version_line};

use crate::answer::Answer;
use crate::refusal::NO_VERSION;
use attr_view::RecordView;
use ntfs_def::kinds::{VOLUME_INFORMATION, VOLUME_NAME};
use ntfs_def::read_units;
use std::alloc::{AllocError, Global};
use vol_bytes::{TextFault, text_of_units};
use volume_def::Version;

fn read_version(value: Option<&[u8]>) -> Option<Version>
    ensures { result ≡ version_in (option_copied value.entry) }
{
    let value = value?;
    if value.len() < 12 {
        return None;
    }
    Some(Version {
        major: value[0x08],
        minor: value[0x09],
    })
}

fn read_name(alloc: Global, value: Option<&[u8]>) -> Result<Vec<u16>, AllocError>
    ensures { IfOk result (λ units. units.items ≡ label_units (option_copied value.entry)) }
{
    match value {
        Some(bytes) => read_units(alloc, bytes),
        None => Ok(Vec::new(alloc)),
    }
}

fn add_name(alloc: Global, text: &mut Vec<u8>, units: &[u16]) -> Result<(), AllocError>
    ensures { OnOk result (text.new.items ≡ text.old.items ++ name_line units.now) }
{
    match text_of_units(alloc, units) {
        Ok(name) => {
            text.extend_from_slice(b"label ")?;
            text.extend_from_slice(name.as_slice())?;
            text.extend_from_slice(b"\n")
        }
        Err(TextFault::Bad) => text.extend_from_slice(b"label\n"),
        Err(TextFault::Memory) => Err(AllocError),
    }
}

fn add_version(text: &mut Vec<u8>, version: Version) -> Result<(), AllocError>
    ensures { OnOk result (text.new.items ≡ text.old.items ++ version_line version) }
{
    text.extend_from_slice(b"version ")?;
    text.extend_from_slice(itoa::Buffer::new().format(version.major).as_bytes())?;
    text.extend_from_slice(b".")?;
    text.extend_from_slice(itoa::Buffer::new().format(version.minor).as_bytes())?;
    text.extend_from_slice(b"\n")
}

#[tactic(auto, unfolding(crate::specs::Text::label_text))]
fn label_text(alloc: Global, units: &[u16], version: Version) -> Result<Vec<u8>, AllocError>
    ensures { IfOk result (λ text. text.items ≡ label_text units.now version) }
{
    let mut text = Vec::new(alloc);
    add_name(alloc, &mut text, units)?;
    add_version(&mut text, version)?;
    Ok(text)
}

/// What the opened record 3 says of the volume.
pub fn report_volume(alloc: Global, view: &RecordView<'_>) -> Result<Answer, AllocError>
    ensures { IfOk result (λ answer. report_of answer ≡ volume_report (attributes_of view.now)) }
{
    let Some(version) = read_version(view.first_value(VOLUME_INFORMATION)) else {
        return Ok(Answer::Refused(NO_VERSION));
    };
    let units = read_name(alloc, view.first_value(VOLUME_NAME))?;
    Ok(Answer::Long(label_text(alloc, &units, version)?))
}
