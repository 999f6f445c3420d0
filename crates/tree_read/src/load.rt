//! A file is loaded, and what an attribute of it holds is read.
ghost use Rattle.std.specs.Prelude.{◌≡◌, ◌+◌, ◌<◌, ◌≤◌, IfErr, IfOk, IfSome, IsSome, IsTrue, MatchResult, length, slice_get, slice_range};
ghost use Rattle.volume_def.specs.Readable.{IsFile, WhereReadable};
ghost use Rattle.volume_def.specs.Values.{attribute_value, pieces_touched};
ghost use Rattle.mft_table.specs.Mft.{MftReads, faults_of, view};
ghost use Rattle.file_record.specs.FileNos.{CountsNo, IsReadNo};
ghost use Rattle.file_record.specs.Held.{AreParts, file_number, parts_held};
ghost use Rattle.sparse_io.specs.First.{attribute_held};
ghost use Rattle.mft_table.specs.InUse.{IsInUse};
ghost use Rattle.tree_model.specs.Reading.{read, shown_content};
ghost use Rattle.tree_model.specs.Tree.{node_of};
ghost use Rattle.tree_read.specs.Answered.{Finds};
ghost use Rattle.tree_read.specs.Nodes.{IsFileHeld, IsNodeHeld, begin_of, number_of};

use crate::stop::Stop;
use file_record::{BaseFile, FileNo, FileParts, load_base};
use mft_table::Mft;
use sparse_io::{find_first, read_value};
use std::alloc::Global;
use tree_model::No;
use vol_bytes::Octets;
use vol_disk::Disk;

/// Loads a file that is in use.
///
/// # Errors
///
/// `Device` where the disk failed, and `Memory`.
pub fn load_file<D: Disk>(alloc: Global, mft: &mut Mft<'_, D>, file: u64) -> Result<BaseFile, Stop>
    requires volume { IsInUse D.Disk mft.old }
    requires file { IsTrue (view D.Disk mft.old).told → IsFile (view D.Disk mft.old) file }
    ensures number { IfOk result (λ held. number_of held ≡ file) }
    ensures found { Finds D.Disk mft.old mft.new (λ volume. IsFileHeld volume file) result }
{
    match load_base(alloc, mft, file) {
        Ok(Some(held)) => Ok(held),
        // Where the volume tells its contents, there is one.
        Ok(None) => Err(Stop::No(No::Memory)),
        Err(no) => Err(Stop::from(no)),
    }
}

/// Loads a file that is shown.
///
/// # Errors
///
/// `Device` where the disk failed, and `Memory`.
pub fn load_node<D: Disk>(alloc: Global, mft: &mut Mft<'_, D>, file: u64) -> Result<BaseFile, Stop>
    requires volume { IsInUse D.Disk mft.old }
    requires file { IsTrue (view D.Disk mft.old).told → IsSome (node_of (read (view D.Disk mft.old)) file) }
    ensures number { IfOk result (λ held. number_of held ≡ file) }
    ensures found { Finds D.Disk mft.old mft.new (λ volume. IsNodeHeld volume) result }
{
    load_file(alloc, mft, file)
}

// Reads the first bytes of the value that a part of the file tells the sizes of.
fn read_bytes<D: Disk>(
    alloc: Global,
    mft: &mut Mft<'_, D>,
    file: &FileParts,
    part: usize,
    len: usize,
) -> Result<Vec<u8>, FileNo>
    requires part { part < length (parts_held file.now) }
    ensures read { IfOk result (λ bytes. WhereReadable (view D.Disk mft.old) (AreParts (view D.Disk mft.old) file.now
        → IsFile (view D.Disk mft.old) (file_number file.now)
        → IfSome (slice_get (parts_held file.now) part) (λ at.
        0 + len ≤ length (attribute_value (view D.Disk mft.old) (parts_held file.now) at)
        → bytes.items ≡ slice_range (attribute_value (view D.Disk mft.old) (parts_held file.now) at) 0 (0 + len)))) }
    ensures err { IfErr result IsReadNo }
    ensures faults { MatchResult result (λ _. faults_of D.Disk mft.new ≡ faults_of D.Disk mft.old)
        (CountsNo (faults_of D.Disk mft.old) (faults_of D.Disk mft.new)) }
    ensures reads { MftReads D.Disk mft.old mft.new (pieces_touched 0 len) }
{
    let mut bytes = vec![in alloc; 0; len]?;
    read_value(alloc, mft, file, part, 0, &mut bytes)?;
    Ok(bytes)
}

/// Reads the first bytes of what the attribute of a type and name holds, at most so many; `None` where it is packed. An
/// attribute that is not there holds no byte.
///
/// # Errors
///
/// `Device` where the disk failed, and `Memory`.
pub fn read_begin<D: Disk>(
    alloc: Global,
    mft: &mut Mft<'_, D>,
    held: &BaseFile,
    kind: u32,
    name: &[u8],
    most: usize,
) -> Result<Option<Octets>, Stop>
    requires held { IsTrue (view D.Disk mft.old).told → IsNodeHeld (view D.Disk mft.old) held.now }
    ensures found { Finds D.Disk mft.old mft.new
        (λ volume found. found ≡ begin_of most (shown_content volume (attribute_held held.now.parts kind name.now))) result }
{
    let Some(first) = find_first(&held.parts, kind, name) else {
        return Ok(Some(Octets::from_vec(Vec::new(alloc))));
    };
    if first.packed {
        return Ok(None);
    }
    let len = first.len.min(most as u64) as usize;
    match read_bytes(alloc, mft, &held.parts, first.index, len) {
        Ok(bytes) => Ok(Some(Octets::from_vec(bytes))),
        Err(no) => Err(Stop::from(no)),
    }
}
