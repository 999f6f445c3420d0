//! What the clause on extents looks at in a part of a file.
ghost use Rattle.std.specs.Prelude.{◌≡◌, ℕ, ◌≤◌, ◌^◌, ◌++◌, IfOk, OnOk, map};
ghost use Rattle.ntfs_def.specs.Runs.{total_clusters};
ghost use Rattle.volume_def.specs.Files.{part_of, record_of};
ghost use Rattle.attr_view.specs.View.{attribute_of, viewed_block};
ghost use Rattle.file_clauses.specs.Extents.{first_vcn, outline_of, outlined};

use attr_view::{AttrView, RecordView, Sizes};
use data_runs::{Run, RunList, read_runs};
use std::alloc::{AllocError, Global};

/// Where a part of a file holds what it holds.
#[derive(Clone, Copy, Debug)]
pub enum Held {
    /// A value, in the record.
    InRecord,
    /// An extent, by its numbers and how many clusters its runs cover; `None` where its text is no run list.
    InClusters { sizes: Sizes, covered: Option<u64> },
}

/// An attribute of a record: all of an attribute of the file, or an extent of it. The name lies in the record.
#[derive(Clone, Copy, Debug)]
pub struct Extent<'b> {
    /// The type, as `0x80` for `$DATA`.
    pub kind: u32,
    /// The bytes of the name.
    pub name: &'b [u8],
    /// The flags of the attribute.
    pub flags: u16,
    /// Where it is held.
    pub held: Held,
}

// The clusters of runs, which are few enough.
fn total_of(runs: &[Run]) -> u64
    requires { total_clusters runs.now ≤ 2 ^ 62 }
    ensures { result ≡ total_clusters runs.now }
{
    runs.iter().map(|run| run.len).sum()
}

/// The clusters of a list of runs.
pub fn clusters_of(runs: &RunList) -> u64
    ensures { result ≡ total_clusters runs.now }
{
    total_of(runs.runs())
}

impl<'b> Extent<'b> {
    /// What an attribute tells.
    ///
    /// # Errors
    ///
    /// Want of memory alone.
    pub fn new(alloc: Global, attribute: &AttrView<'b>) -> Result<Extent<'b>, AllocError>
        ensures { IfOk result (λ extent. (n : ℕ) → outlined extent ≡ outline_of (part_of n (attribute_of attribute.now))) }
    {
        Ok(Extent {
            kind: attribute.kind(),
            name: attribute.name(),
            flags: attribute.flags(),
            held: held_by(alloc, attribute)?,
        })
    }

    /// The number, in the stream, of the first cluster that it holds; 0 of a value.
    pub fn first_vcn(&self) -> u64
        ensures { result ≡ first_vcn (outlined self.now) }
    {
        match self.held {
            Held::InRecord => 0,
            Held::InClusters { sizes, .. } => sizes.first,
        }
    }
}

// Where an attribute is held.
fn held_by(alloc: Global, attribute: &AttrView<'_>) -> Result<Held, AllocError>
    ensures { IfOk result (λ held. (n : ℕ) → held ≡ (outline_of (part_of n (attribute_of attribute.now))).held) }
{
    let Some(sizes) = attribute.sizes() else {
        return Ok(Held::InRecord);
    };
    let Some(text) = attribute.runs() else {
        return Ok(Held::InRecord);
    };
    let runs = read_runs(alloc, text)?;
    let covered = runs.map(|runs| clusters_of(&runs));
    Ok(Held::InClusters { sizes, covered })
}

/// Adds the attributes of a record, in order.
///
/// # Errors
///
/// Want of memory alone.
pub fn add_extents<'b>(
    alloc: Global,
    view: &RecordView<'b>,
    extents: &mut Vec<Extent<'b>>,
) -> Result<(), AllocError>
    ensures { OnOk result ((n : ℕ) → map outlined extents.new.items
        ≡ map outlined extents.old.items ++ map outline_of (record_of n (viewed_block view.now)).parts) }
{
    for attribute in view.attributes() {
        extents.push(Extent::new(alloc, &attribute)?)?;
    }
    Ok(())
}

/// The attributes of a record, in order.
///
/// # Errors
///
/// Want of memory alone.
pub fn extents_of<'b>(alloc: Global, view: &RecordView<'b>) -> Result<Vec<Extent<'b>>, AllocError>
    ensures { IfOk result (λ extents. (n : ℕ)
        → map outlined extents.items ≡ map outline_of (record_of n (viewed_block view.now)).parts) }
{
    let mut extents = Vec::new(alloc);
    add_extents(alloc, view, &mut extents)?;
    Ok(extents)
}
