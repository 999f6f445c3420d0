//! The names of files, in the order of the records that hold them.
ghost use Rattle.std.specs.Prelude.{◌≡◌, ◌+◌, ◌∷◌, [], Some, None, OnOk, map};
ghost use Rattle.std.specs.Option.{option_map, option_to_list};
ghost use Rattle.volume_def.specs.AttributesClause.{IsRightPart, MeetsAttributes};
ghost use Rattle.volume_def.specs.FileNames.{names_among};
ghost use Rattle.volume_def.specs.Files.{Records, file_of, part_of, record_of};
ghost use Rattle.attr_view.specs.View.{attribute_of, viewed_block};
ghost use Rattle.record_notes.specs.declared.names.Names.{Names};
ghost use Rattle.record_notes.specs.Names.{NamesNote, held_name, told_name};

use attr_view::{AttrView, RecordView};
use ntfs_def::file_name::{NAMESPACE, PARENT, UNITS};
use ntfs_def::kinds::FILE_NAME;
use ntfs_def::reference::number_in;
use std::alloc::{AllocError, Global};
use vol_bytes::u64_at;

/// The namespace of a long name that has a short partner.
pub const WIN32: u8 = 1;

/// The namespace of a short name that has a long partner.
pub const DOS: u8 = 2;

/// What is noted of a name of a file.
#[derive(Clone, Copy, Debug)]
pub struct NameFact {
    /// The record that holds it.
    pub holder: u64,
    /// The file that has it.
    pub file: u64,
    /// The reference of the directory that has it.
    pub parent: u64,
    /// 0 POSIX, 1 Win32, 2 DOS, 3 both.
    pub namespace: u8,
}

/// What is noted of names, in the order of the records that hold them.
#[derive(Debug, Drop)]
pub struct Names {
    names: Vec<NameFact>,
}

/// The file to which record n belongs.
pub fn file_of(n: u64, view: &RecordView<'_>) -> u64
    ensures { result ≡ file_of n (record_of n (viewed_block view.now)) }
{
    let base = view.header().base;
    if base == 0 { n } else { number_in(base) }
}

// What an attribute tells of a name: nothing where it is no `$FILE_NAME`, and where it is too short to be one.
fn fact_in(holder: u64, file: u64, attribute: &AttrView<'_>) -> Option<NameFact>
    ensures { IsRightPart (part_of holder (attribute_of attribute.now)) → option_to_list (option_map told_name result)
        ≡ map (held_name holder file) (names_among (part_of holder (attribute_of attribute.now) ∷ [])) }
{
    if attribute.kind() != FILE_NAME {
        return None;
    }
    let value = attribute.value()?;
    if value.len() < UNITS {
        return None;
    }
    Some(NameFact {
        holder,
        file,
        parent: u64_at(value, PARENT),
        namespace: value[NAMESPACE],
    })
}

impl Names {
    /// Nothing noted yet.
    pub fn new(alloc: Global) -> Names
        ensures { (records : Records) → NamesNote records 0 result }
    {
        Names {
            names: Vec::new(alloc),
        }
    }

    /// What is noted, in order.
    pub fn facts(&self) -> &[NameFact]
        ensures { result.now ≡ self.now.names.items }
    {
        &self.names
    }

    /// Notes the names that record n holds, which is in use. A record that is not in use needs no note.
    ///
    /// # Errors
    ///
    /// Where memory is out.
    pub fn note(&mut self, n: u64, view: &RecordView<'_>) -> Result<(), AllocError>
        ensures { OnOk result ((records : Records) → records.record_at n ≡ Some (record_of n (viewed_block view.now))
            → MeetsAttributes records n → NamesNote records n self.old → NamesNote records (n + 1) self.new) }
    {
        let file = file_of(n, view);
        for attribute in view.attributes() {
            if let Some(name) = fact_in(n, file, &attribute) {
                self.names.push(name)?;
            }
        }
        Ok(())
    }
}
