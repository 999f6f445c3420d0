//! A record that is edited in its block.
ghost use Rattle.std.specs.Prelude.{◌≡◌, ◌<◌, ◌≤◌, ◌+◌, ◌-◌, ◌↔◌, IfErr, IfOk, IsOk, IsSome, IsSomeAnd, OnErr, OnOk, length};
ghost use Rattle.ntfs_def.specs.Attribute.{attribute_len, attribute_place, attributes, run_text_of, value_of};
ghost use Rattle.ntfs_def.specs.Record.{used_size};
ghost use Rattle.ntfs_def.specs.Shape.{HasShape, IsOneAttribute};
ghost use Rattle.attr_view.specs.Edit.{Inserts, LacksRoom, Removes, SetsHeader};
ghost use Rattle.attr_view.specs.Sizes.{SetsSizes};
ghost use Rattle.attr_view.specs.Values.{Resizes, WritesValue, attribute_in, len_with};
ghost use Rattle.attr_view.specs.View.{Refuses, viewed_block};

use crate::edit::{insert_bytes, put_bytes, put_header, put_sizes, remove_bytes};
use crate::shape::place_in;
use crate::value::{resize_bytes, resized_len, value_begin};
use crate::{RecordView, ViewNo};
use ntfs_def::lengths::RECORD;
use ntfs_def::{attribute_header, record_header};
use vol_bytes::{u16_at, u32_at};

/// The fields of a record's header that an owner chooses.
#[derive(Clone, Copy, Debug, PartialEq, Eq)]
pub struct RecordHeader {
    /// How often the record was used anew.
    pub sequence: u16,
    /// The names of the file.
    pub links: u16,
    /// 1 in use, 2 directory.
    pub flags: u16,
    /// The reference of the base record, 0 in a base record.
    pub base: u64,
}

/// A file record whose attributes can be read and edited. All its bytes stay in the block that was lent, which has every
/// edit once this is let go.
#[derive(Debug, Drop)]
pub struct RecordMut<'r> {
    block: &'r mut [u8; 1024],
    ghost shape: { HasShape block.now (length (attributes block.now)) },
}

// Puts an attribute into a record before attribute i, or behind all.
fn insert_in(block: &mut [u8; 1024], i: usize, attr: &[u8]) -> Result<(), ViewNo>
    requires shape { HasShape block.old (length (attributes block.old)) }
    requires place { i ≤ length (attributes block.old) }
    requires one { IsOneAttribute attr.now }
    ensures ok { OnOk result (Inserts block.old block.new attr.now i) }
    ensures fits { IsOk result ↔ (used_size block.old + length attr.now ≤ 1024) }
    ensures err { IfErr result (LacksRoom block.old (length attr.now)) }
    ensures kept { OnErr result (block.new ≡ block.old) }
{
    let need = attr.len();
    let free = RECORD - u32_at(block, record_header::USED_SIZE) as usize;
    if need > free {
        return Err(ViewNo::Full { need, free });
    }
    let at = place_in(block, i);
    insert_bytes(block, at, attr);
    Ok(())
}

// Takes attribute i out of a record.
fn remove_in(block: &mut [u8; 1024], i: usize)
    requires shape { HasShape block.old (length (attributes block.old)) }
    requires within { i < length (attributes block.old) }
    ensures { Removes block.old block.new i }
{
    let at = place_in(block, i);
    let len = u32_at(block, at + attribute_header::LEN) as usize;
    remove_bytes(block, at, len);
}

// Writes bytes into the value of attribute i, from its byte `at` on.
fn write_value_in(block: &mut [u8; 1024], i: usize, at: usize, from: &[u8])
    requires shape { HasShape block.old (length (attributes block.old)) }
    requires within { i < length (attributes block.old) }
    requires inside { IsSomeAnd (value_of (attribute_in block.old i).body) (λ value. at + length from.now ≤ length value) }
    ensures { WritesValue block.old block.new from.now i at }
{
    let place = place_in(block, i);
    let value = place + u16_at(block, place + attribute_header::VALUE_OFFSET) as usize;
    put_bytes(block, value + at, from);
}

// Gives the value of attribute i the length n.
fn resize_in(block: &mut [u8; 1024], i: usize, n: usize) -> Result<(), ViewNo>
    requires shape { HasShape block.old (length (attributes block.old)) }
    requires within { i < length (attributes block.old) }
    requires resident { IsSome (value_of (attribute_in block.old i).body) }
    requires most { n ≤ 65536 }
    ensures ok { OnOk result (Resizes block.old block.new i n) }
    ensures fits { IsOk result
        ↔ (used_size block.old + len_with block.old i n ≤ 1024 + attribute_len block.old (attribute_place block.old i)) }
    ensures err { IfErr result (LacksRoom block.old (len_with block.old i n - attribute_len block.old (attribute_place block.old i))) }
    ensures kept { OnErr result (block.new ≡ block.old) }
{
    let at = place_in(block, i);
    let was = u32_at(block, at + attribute_header::LEN) as usize;
    let len = resized_len(value_begin(block, at), n);
    let free = RECORD - u32_at(block, record_header::USED_SIZE) as usize;
    if len > was + free {
        let need = len - was;
        return Err(ViewNo::Full { need, free });
    }
    resize_bytes(block, at, len, n);
    Ok(())
}

// Sets the real and the initialized size of attribute i.
fn set_sizes_in(block: &mut [u8; 1024], i: usize, real: u64, initialized: u64)
    requires shape { HasShape block.old (length (attributes block.old)) }
    requires within { i < length (attributes block.old) }
    requires extent { IsSome (run_text_of (attribute_in block.old i).body) }
    ensures { SetsSizes block.old block.new i real initialized }
{
    let place = place_in(block, i);
    put_sizes(block, place, real, initialized);
}

// Sets fields of a record's header.
fn set_header_in(block: &mut [u8; 1024], header: RecordHeader)
    requires { HasShape block.old (length (attributes block.old)) }
    ensures { SetsHeader block.old block.new header }
{
    put_header(block, header);
}

impl<'r> RecordMut<'r> {
    ghost use Rattle.attr_view.specs.Edited.{edited_block, reference_of};

    /// An opened record that can be edited.
    ///
    /// # Errors
    ///
    /// `Shape` exactly where the shape clause of the volume definition fails, with the first place where it does.
    pub fn new(block: &'r mut [u8; 1024]) -> Result<RecordMut<'r>, ViewNo>
        ensures same_reference { IfOk result (λ edited. reference_of edited ≡ block.entry.ghost_name) }
        ensures ok { IfOk result (λ edited. edited_block edited ≡ block.old) }
        ensures shape { IfOk result (λ edited. HasShape block.old (length (attributes block.old))) }
        ensures err { IfErr result (Refuses block.old) }
    {
        RecordView::new(block)?;
        Ok(RecordMut { block })
    }

    /// A view of the record as it is now.
    pub fn view(&self) -> RecordView<'_>
        ensures { viewed_block result ≡ edited_block self.now }
    {
        match RecordView::new(self.block) {
            Ok(view) => view,
            Err(_) => unreachable!(),
        }
    }

    /// Puts an attribute before attribute `i`, or behind all, and tells so in the used size and in the next
    /// attribute id: this one rises by one where the attribute has that very id. All other attributes stay.
    ///
    /// # Errors
    ///
    /// `Full` exactly where the record has no room for the attribute. It is then as before.
    pub fn insert(&mut self, i: usize, attr: &[u8]) -> Result<(), ViewNo>
        requires place { i ≤ length (attributes (edited_block self.old)) }
        requires one { IsOneAttribute attr.now }
        ensures same_reference { reference_of self.new ≡ reference_of self.old }
        ensures ok { OnOk result (Inserts (edited_block self.old) (edited_block self.new) attr.now i) }
        ensures fits { IsOk result ↔ (used_size (edited_block self.old) + length attr.now ≤ 1024) }
        ensures err { IfErr result (LacksRoom (edited_block self.old) (length attr.now)) }
        ensures kept { OnErr result (edited_block self.new ≡ edited_block self.old) }
    {
        insert_in(self.block, i, attr)
    }

    /// Takes attribute `i` out, and tells so in the used size. All other attributes stay.
    pub fn remove(&mut self, i: usize)
        requires { i < length (attributes (edited_block self.old)) }
        ensures same_reference { reference_of self.new ≡ reference_of self.old }
        ensures removed { Removes (edited_block self.old) (edited_block self.new) i }
    {
        remove_in(self.block, i);
    }

    /// Writes bytes into the value of attribute `i`, a resident one, from the value's byte `at` on. All other bytes stay.
    pub fn write_value(&mut self, i: usize, at: usize, from: &[u8])
        requires within { i < length (attributes (edited_block self.old)) }
        requires inside { IsSomeAnd (value_of (attribute_in (edited_block self.old) i).body)
            (λ value. at + length from.now ≤ length value) }
        ensures same_reference { reference_of self.new ≡ reference_of self.old }
        ensures written { WritesValue (edited_block self.old) (edited_block self.new) from.now i at }
    {
        write_value_in(self.block, i, at, from);
    }

    /// Gives the value of attribute `i`, a resident one, the length `n`, at most 65,536, with zeros behind it where it grows,
    /// and tells so in the used size. All other attributes stay.
    ///
    /// A value begins past the header then: an empty one may have stood inside it, and an empty name is moved to the
    /// header's end where it stood behind that.
    ///
    /// # Errors
    ///
    /// `Full` exactly where the record has no room for the attribute. It is then as before.
    pub fn resize(&mut self, i: usize, n: usize) -> Result<(), ViewNo>
        requires within { i < length (attributes (edited_block self.old)) }
        requires resident { IsSome (value_of (attribute_in (edited_block self.old) i).body) }
        requires most { n ≤ 65536 }
        ensures same_reference { reference_of self.new ≡ reference_of self.old }
        ensures ok { OnOk result (Resizes (edited_block self.old) (edited_block self.new) i n) }
        ensures fits { IsOk result ↔ (used_size (edited_block self.old) + len_with (edited_block self.old) i n
            ≤ 1024 + attribute_len (edited_block self.old) (attribute_place (edited_block self.old) i)) }
        ensures err { IfErr result (LacksRoom (edited_block self.old)
            (len_with (edited_block self.old) i n - attribute_len (edited_block self.old) (attribute_place (edited_block self.old) i))) }
        ensures kept { OnErr result (edited_block self.new ≡ edited_block self.old) }
    {
        resize_in(self.block, i, n)
    }

    /// Sets the real and the initialized size of attribute `i`, a non-resident one: those of a stream in the header of its first
    /// extent. All other bytes stay.
    pub fn set_sizes(&mut self, i: usize, real: u64, initialized: u64)
        requires within { i < length (attributes (edited_block self.old)) }
        requires extent { IsSome (run_text_of (attribute_in (edited_block self.old) i).body) }
        ensures same_reference { reference_of self.new ≡ reference_of self.old }
        ensures set { SetsSizes (edited_block self.old) (edited_block self.new) i real initialized }
    {
        set_sizes_in(self.block, i, real, initialized);
    }

    /// Sets these fields of the record's header. All other bytes stay.
    pub fn set_header(&mut self, header: RecordHeader)
        ensures same_reference { reference_of self.new ≡ reference_of self.old }
        ensures set { SetsHeader (edited_block self.old) (edited_block self.new) header }
    {
        set_header_in(self.block, header);
    }
}
