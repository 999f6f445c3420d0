//! What a loaded file shows of itself: its header, its standard information, its names and its streams.
ghost use Rattle.std.specs.Prelude.{◌≡◌, ◌==◌, ◌<◌, ◌/◌, ◌%◌, ℕ, IfErr, IfOk, Ok, slice_index};
ghost use Rattle.attr_view.specs.View.{attribute_of};
ghost use Rattle.volume_def.specs.Files.{part_of};
ghost use Rattle.volume_def.specs.View.{VolumeView};
ghost use Rattle.vol_bytes.specs.Field.{u16_at, u32_at, u64_at};
ghost use Rattle.file_record.specs.Held.{parts_held};
ghost use Rattle.tree_model.specs.Answers.{shown_link_count};
ghost use Rattle.tree_model.specs.Reading.{read, standard_flags, standard_of};
ghost use Rattle.ntfs_def.specs.StandardInformation.{standard_security, standard_times};
ghost use Rattle.tree_read.specs.Nodes.{IsCaseOf, IsNodeHeld, number_of};
ghost use Rattle.tree_model.specs.Tree.{node_of};
ghost use Rattle.tree_read.specs.Parts.{IsPartIfThere, is_shown_name, shown_names, unnamed_size};
ghost use Rattle.tree_read.specs.Shown.{attr_shown, sec_shown, stat_shown, streams_shown};
ghost use Rattle.tree_model.specs.declared.reply.No.TheVariants as no;

use attr_view::AttrView;
use file_record::{BaseFile, FileParts};
use ntfs_def::kinds::{FILE_NAME, STANDARD_INFORMATION};
use ntfs_def::records::ROOT;
use ntfs_def::{file_name, standard_information};
use sparse_io::{find_stream, is_of, list_streams};
use std::alloc::{AllocError, Global};
use tree_model::{Answer, No, SHOWN_FLAGS, ShownStreams};
use upcase::UpCase;
use vol_bytes::{Name, u32_at};

// The namespace of a DOS name.
const DOS: u8 = 2;

/// The place of the first part of a type and name, `None` where there is none.
pub fn find_part(file: &FileParts, kind: u32, name: &[u8]) -> Option<usize>
    ensures { IsPartIfThere file.now kind name.now result }
{
    let mut attributes = file.attributes();
    for index in 0..file.count() {
        let Some(attribute) = attributes.next() else {
            return None;
        };
        if is_of(&attribute, kind, name) {
            return Some(index);
        }
    }
    None
}

// A byte of a value, zero behind its end.
fn byte_at(value: &[u8], at: usize) -> u8
    ensures { result ≡ slice_index value.now at }
{
    value.get(at).copied().unwrap_or(0)
}

/// The number in the two bytes at a place of a value, behind whose end zeros stand.
pub fn padded_u16(value: &[u8], at: usize) -> u16
    requires { at < 1024 }
    ensures { result ≡ u16_at value.now at }
{
    u16::from(byte_at(value, at)) + 256 * u16::from(byte_at(value, at + 1))
}

/// The same of four bytes.
pub fn padded_u32(value: &[u8], at: usize) -> u32
    requires { at < 1022 }
    ensures { result ≡ u32_at value.now at }
{
    u32::from(padded_u16(value, at)) + 65_536 * u32::from(padded_u16(value, at + 2))
}

// The same of eight bytes.
fn padded_u64(value: &[u8], at: usize) -> u64
    requires { at < 1018 }
    ensures { result ≡ u64_at value.now at }
{
    u64::from(padded_u32(value, at)) + (1 << 32) * u64::from(padded_u32(value, at + 4))
}

// The value of $STANDARD_INFORMATION; no byte where it lies in clusters or is not there.
fn standard_value(file: &FileParts) -> &[u8]
    ensures { result.now ≡ standard_of (parts_held file.now) }
{
    match find_part(file, STANDARD_INFORMATION, &[]) {
        None => &[],
        Some(place) => file.attr(place).value().unwrap_or(&[]),
    }
}

// The id of the security descriptor; a value below 72 bytes has none.
fn security(value: &[u8]) -> u32
    ensures { result ≡ standard_security value.now }
{
    if value.len() < standard_information::LEN {
        return 0;
    }
    u32_at(value, standard_information::SECURITY)
}

/// What `$STANDARD_INFORMATION` tells.
#[derive(Clone, Copy)]
pub struct Standard {
    /// The four times: made, changed, record changed, read.
    pub times: [u64; 4],
    /// The DOS flags that are shown.
    pub flags: u16,
    /// The id of the security descriptor.
    pub security: u32,
}

/// What the `$STANDARD_INFORMATION` of a file that is held tells.
#[tactic(auto, using(std::proofs::lemmas::Nat::and_le_r))]
pub fn read_standard(file: &FileParts) -> Standard
    ensures times { result.times ≡ standard_times (standard_of (parts_held file.now)) }
    ensures flags { result.flags ≡ standard_flags (standard_of (parts_held file.now)) }
    ensures security { result.security ≡ standard_security (standard_of (parts_held file.now)) }
{
    let value = standard_value(file);
    Standard {
        times: [
            padded_u64(value, standard_information::CREATED),
            padded_u64(value, standard_information::MODIFIED),
            padded_u64(value, standard_information::RECORD_CHANGED),
            padded_u64(value, standard_information::ACCESSED),
        ],
        flags: (padded_u32(value, standard_information::FLAGS) & u32::from(SHOWN_FLAGS)) as u16,
        security: security(value),
    }
}

/// Whether the file is a directory.
pub fn is_directory(held: &BaseFile) -> bool
    ensures { result ≡ (held.now.header.flags / 2 % 2 == 1) }
{
    ntfs_def::is_directory(held.header.flags)
}

// Whether an attribute is a name that is no DOS name.
#[tactic(auto, unfolding(ntfs_def::specs::FileName::name_in))]
fn is_shown_name(attribute: &AttrView<'_>) -> bool
    ensures { (n : ℕ) → result ≡ is_shown_name (part_of n (attribute_of attribute.now)) }
{
    if attribute.kind() != FILE_NAME {
        return false;
    }
    match attribute.value() {
        None => false,
        Some(value) => byte_at(value, file_name::NAMESPACE) != DOS,
    }
}

// How many names a file has that are no DOS names.
fn count_names(file: &FileParts) -> u64
    ensures { result ≡ shown_names (parts_held file.now) }
{
    let mut count = 0;
    let mut attributes = file.attributes();
    for _place in 0..file.count() {
        let Some(attribute) = attributes.next() else {
            return count;
        };
        if is_shown_name(&attribute) {
            count += 1;
        }
    }
    count
}

// LINKS of `stat`: the root has no link that is shown.
fn link_count(held: &BaseFile) -> u64
    ensures { (view : VolumeView) → IsNodeHeld view held.now → result ≡ shown_link_count (read view) (number_of held.now) }
{
    if held.parts.number() == ROOT {
        return 0;
    }
    count_names(&held.parts)
}

// SIZE of `stat`: of the unnamed stream, 0 where there is none.
fn unnamed_size(alloc: Global, held: &BaseFile, upcase: &UpCase) -> Result<u64, AllocError>
    ensures { IfOk result (λ size. (view : VolumeView) → IsNodeHeld view held.now → IsCaseOf view upcase.now
        → size ≡ unnamed_size (read view) (node_of (read view) (number_of held.now))) }
{
    let unnamed = Name::from_vec(Vec::new(alloc));
    match find_stream(alloc, &held.parts, upcase, &unnamed) {
        Ok(None) => Ok(0),
        Ok(Some(found)) => Ok(found.size),
        Err(no) => Err(no),
    }
}

/// `stat`: whether the file is a directory, how many names it has that are no DOS names, the size of its unnamed stream, and
/// what its standard information tells.
///
/// # Errors
///
/// `Memory`.
pub fn stat(alloc: Global, held: &BaseFile, upcase: &UpCase) -> Result<Answer, No>
    ensures ok { IfOk result (λ answer. (view : VolumeView) → IsNodeHeld view held.now → IsCaseOf view upcase.now
        → stat_shown (read view) (number_of held.now) ≡ Ok answer) }
    ensures err { IfErr result (λ refused. refused ≡ no.Memory) }
{
    let told = read_standard(&held.parts);
    match unnamed_size(alloc, held, upcase) {
        Ok(size) => Ok(Answer::Stat {
            dir: is_directory(held),
            links: link_count(held),
            size,
            flags: told.flags,
            security: told.security,
            created: told.times[0],
            modified: told.times[1],
            changed: told.times[2],
            accessed: told.times[3],
        }),
        Err(_) => Err(No::Memory),
    }
}

/// `attr`: the DOS flags.
pub fn attr(held: &BaseFile) -> Answer
    ensures { (view : VolumeView) → IsNodeHeld view held.now → attr_shown (read view) (number_of held.now) ≡ Ok result }
{
    Answer::Attr(read_standard(&held.parts).flags)
}

/// `sec`: the id of the security descriptor.
pub fn sec(held: &BaseFile) -> Answer
    ensures { (view : VolumeView) → IsNodeHeld view held.now → sec_shown (read view) (number_of held.now) ≡ Ok result }
{
    Answer::Sec(read_standard(&held.parts).security)
}

/// `streams`: the streams, in name order.
///
/// # Errors
///
/// `Memory`.
pub fn streams(alloc: Global, held: &BaseFile, upcase: &UpCase) -> Result<Answer, No>
    ensures ok { IfOk result (λ answer. (view : VolumeView) → IsNodeHeld view held.now → IsCaseOf view upcase.now
        → streams_shown (read view) (number_of held.now) ≡ Ok answer) }
    ensures err { IfErr result (λ refused. refused ≡ no.Memory) }
{
    match list_streams(alloc, &held.parts, upcase) {
        Ok(shown) => Ok(Answer::Streams(ShownStreams::from_vec(shown))),
        Err(_) => Err(No::Memory),
    }
}
