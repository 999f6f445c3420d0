//! What is asked of a file on the way to it: its names, and whether it has a reparse point.
ghost use Rattle.std.specs.Prelude.{◌≡◌, ◌++◌, [], IfOk, OnOk};
ghost use Rattle.std.specs.Option.{option_to_list};
ghost use Rattle.ntfs_def.specs.declared.kinds.TheConstants.{REPARSE_POINT};
ghost use Rattle.volume_def.specs.Files.{is_of, part_of};
ghost use Rattle.attr_view.specs.View.{attribute_of};
ghost use Rattle.tree_read.specs.FileLinks.{attribute_link, has_point_held, links_held};

use attr_view::AttrView;
use dir_index::link_of_key;
use file_record::FileParts;
use ntfs_def::kinds::{FILE_NAME, REPARSE_POINT};
use std::alloc::{AllocError, Global};
use tree_model::Link;

// Adds what an attribute names a file.
fn add_link(
    alloc: Global,
    file: u64,
    attribute: &AttrView<'_>,
    links: &mut Vec<Link>,
) -> Result<(), AllocError>
    ensures { OnOk result (links.new.items ≡ links.old.items ++ option_to_list (attribute_link file (attribute_of attribute.now))) }
{
    if attribute.kind() != FILE_NAME {
        return Ok(());
    }
    let Some(key) = attribute.value() else {
        return Ok(());
    };
    if let Some(link) = link_of_key(alloc, key, file)? {
        links.push(link)?;
    }
    Ok(())
}

/// The names of a file that is held as links to it, by record and place, DOS names too.
///
/// # Errors
///
/// Want of memory alone.
pub fn links_of(alloc: Global, file: &FileParts) -> Result<Vec<Link>, AllocError>
    ensures { IfOk result (λ links. links.items ≡ links_held file.now) }
{
    let mut links = Vec::new(alloc);
    let mut attributes = file.attributes();
    while let Some(attribute) = attributes.next() {
        add_link(alloc, file.number(), &attribute, &mut links)?;
    }
    Ok(links)
}

// Whether an attribute is a reparse point.
fn is_point(attribute: &AttrView<'_>) -> bool
    ensures { result ≡ is_of REPARSE_POINT [] (part_of 0 (attribute_of attribute.now)) }
{
    attribute.kind() == REPARSE_POINT && attribute.name().is_empty()
}

/// Whether a file that is held has a reparse point.
pub fn has_point(file: &FileParts) -> bool
    ensures { result ≡ has_point_held file.now }
{
    let mut attributes = file.attributes();
    while let Some(attribute) = attributes.next() {
        if is_point(&attribute) {
            return true;
        }
    }
    false
}
