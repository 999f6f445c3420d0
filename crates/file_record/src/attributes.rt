//! Attributes of one record of a file: one that comes, goes, is put in another's place, or has another value.
ghost use Rattle.std.specs.Prelude.{◌≡◌, ◌+◌, ◌*◌, ◌<◌, ◌≤◌, IfErr, IsSome, IsSomeAnd, IsTrue, OnErr, OnOk, false, length};
ghost use Rattle.ntfs_def.specs.Attribute.{attribute_len, attribute_place, attributes, value_of};
ghost use Rattle.ntfs_def.specs.Record.{header_of, used_size};
ghost use Rattle.ntfs_def.specs.Shape.{HasShape, IsOneAttribute};
ghost use Rattle.attr_view.specs.Edit.{Inserts, Removes};
ghost use Rattle.attr_view.specs.Values.{Resizes, attribute_in, len_with};
ghost use Rattle.volume_def.specs.Coverage.{IsApart};
ghost use Rattle.mft_table.specs.Mft.{MftReserves, MftStages, is_mft_broken, mounted_of, view};
ghost use Rattle.mft_table.specs.MirrorClusters.{IsMirrorInside};
ghost use Rattle.mft_table.specs.Staging.{record_places};
ghost use Rattle.file_record.specs.Attributes.{HasRoomToPut, InsertsAttribute, IsRoomAfterPut, PutsIn, PutsInValue, PutsInstead};
ghost use Rattle.file_record.specs.Attributes.{RemovesAttribute, ReplacesAttribute, ResizesAttribute};
ghost use Rattle.file_record.specs.Held.{RecordHeld, held_of};
ghost use Rattle.file_record.specs.Links.{HoldsSame};
ghost use Rattle.file_record.specs.Written.{IsWholeFile};

use crate::write::write_value_in;
use crate::{FileNo, FileParts, Held};
use attr_view::RecordMut;
use mft_table::Mft;
use ntfs_def::lengths::RECORD;
use ntfs_def::record_header;
use vol_bytes::{u16_at, u32_at};
use vol_disk::Disk;

// Puts an attribute into a record that has room for it, before its attribute i or behind all.
fn insert_in(block: &mut [u8; 1024], i: usize, attr: &[u8])
    requires shape { HasShape block.old (length (attributes block.old)) }
    requires place { i ≤ length (attributes block.old) }
    requires one { IsOneAttribute attr.now }
    requires fits { used_size block.old + length attr.now ≤ 1024 }
    ensures { Inserts block.old block.new attr.now i }
{
    match RecordMut::new(block) {
        Ok(mut record) => match record.insert(i, attr) {
            Ok(()) => (),
            Err(_) => unreachable!(),
        },
        Err(_) => unreachable!(),
    }
}

// Takes attribute i out of a record.
fn remove_in(block: &mut [u8; 1024], i: usize)
    requires shape { HasShape block.old (length (attributes block.old)) }
    requires within { i < length (attributes block.old) }
    ensures { Removes block.old block.new i }
{
    match RecordMut::new(block) {
        Ok(mut record) => record.remove(i),
        Err(_) => unreachable!(),
    }
}

// Puts an attribute in the place of attribute i of a record that has room for it then.
fn replace_in(block: &mut [u8; 1024], i: usize, attr: &[u8])
    requires shape { HasShape block.old (length (attributes block.old)) }
    requires within { i < length (attributes block.old) }
    requires one { IsOneAttribute attr.now }
    requires fits { used_size block.old + length attr.now ≤ 1024 + attribute_len block.old (attribute_place block.old i) }
    ensures { PutsInstead block.old block.new attr.now i }
{
    remove_in(block, i);
    insert_in(block, i, attr);
}

// Gives the value of attribute i the length `len`, for which the record has room.
fn resize_in(block: &mut [u8; 1024], i: usize, len: usize)
    requires shape { HasShape block.old (length (attributes block.old)) }
    requires within { i < length (attributes block.old) }
    requires resident { IsSome (value_of (attribute_in block.old i).body) }
    requires most { len ≤ 65536 }
    requires fits { used_size block.old + len_with block.old i len ≤ 1024 + attribute_len block.old (attribute_place block.old i) }
    ensures { Resizes block.old block.new i len }
{
    match RecordMut::new(block) {
        Ok(mut record) => match record.resize(i, len) {
            Ok(()) => (),
            Err(_) => unreachable!(),
        },
        Err(_) => unreachable!(),
    }
}

// Puts bytes into the value of attribute i, of `len` bytes, from its byte `at` on. The record has room for it then.
fn put_in(block: &mut [u8; 1024], i: usize, len: usize, at: usize, from: &[u8])
    requires shape { HasShape block.old (length (attributes block.old)) }
    requires within { i < length (attributes block.old) }
    requires value { IsSomeAnd (value_of (attribute_in block.old i).body) (λ value. len ≡ length value) }
    requires few { len ≤ 1024 }
    requires most { at + length from.now ≤ 65536 }
    requires fits { HasRoomToPut block.old i at (length from.now) }
    ensures { PutsIn block.old block.new i at from.now }
{
    let end = at + from.len();
    resize_in(block, i, end.max(len));
    write_value_in(block, i, at, from);
}

impl Held {
    /// How many bytes no attribute takes.
    pub fn free_bytes(&self) -> usize
        ensures { result + used_size self.now.block ≡ 1024 }
    {
        RECORD - u32_at(&self.block, record_header::USED_SIZE) as usize
    }

    // The id that is the next attribute's.
    #[tactic(auto, unfolding(ntfs_def::specs::Record::header_of))]
    fn next_id(&self) -> u16
        ensures { result ≡ (header_of self.now.block).next_id }
    {
        u16_at(&self.block, record_header::NEXT_ID)
    }

    // Puts an attribute in, before attribute i or behind all.
    fn insert_attribute(&mut self, i: usize, attr: &[u8])
        requires place { i ≤ length (attributes self.old.block) }
        requires one { IsOneAttribute attr.now }
        requires fits { used_size self.old.block + length attr.now ≤ 1024 }
        ensures number { self.new.number ≡ self.old.number }
        ensures edited { Inserts self.old.block self.new.block attr.now i }
    {
        insert_in(&mut self.block, i, attr);
        self.count += 1;
    }

    // Takes attribute i out.
    fn remove_attribute(&mut self, i: usize)
        requires { i < length (attributes self.old.block) }
        ensures number { self.new.number ≡ self.old.number }
        ensures edited { Removes self.old.block self.new.block i }
    {
        remove_in(&mut self.block, i);
        self.count -= 1;
    }

    // Puts an attribute in the place of attribute i.
    fn replace_attribute(&mut self, i: usize, attr: &[u8])
        requires within { i < length (attributes self.old.block) }
        requires one { IsOneAttribute attr.now }
        requires fits { used_size self.old.block + length attr.now
            ≤ 1024 + attribute_len self.old.block (attribute_place self.old.block i) }
        ensures number { self.new.number ≡ self.old.number }
        ensures edited { PutsInstead self.old.block self.new.block attr.now i }
    {
        replace_in(&mut self.block, i, attr);
    }

    // Gives the value of attribute i the length `len`.
    fn resize_attribute(&mut self, i: usize, len: usize)
        requires within { i < length (attributes self.old.block) }
        requires resident { IsSome (value_of (attribute_in self.old.block i).body) }
        requires most { len ≤ 65536 }
        requires fits { used_size self.old.block + len_with self.old.block i len
            ≤ 1024 + attribute_len self.old.block (attribute_place self.old.block i) }
        ensures number { self.new.number ≡ self.old.number }
        ensures edited { Resizes self.old.block self.new.block i len }
    {
        resize_in(&mut self.block, i, len);
    }

    // How long the value of attribute i is, a resident one.
    fn value_len(&self, i: usize) -> usize
        requires within { i < length (attributes self.now.block) }
        requires resident { IsSome (value_of (attribute_in self.now.block i).body) }
        ensures len { IsSomeAnd (value_of (attribute_in self.now.block i).body) (λ value. result ≡ length value) }
        ensures few { result ≤ 1024 }
    {
        match self.view().attr(i).value() {
            Some(value) => value.len(),
            None => unreachable!(),
        }
    }

    // Puts bytes into the value of attribute i, from its byte `at` on.
    fn put_in_value(&mut self, i: usize, at: usize, from: &[u8])
        requires within { i < length (attributes self.old.block) }
        requires most { at + length from.now ≤ 65536 }
        requires fits { HasRoomToPut self.old.block i at (length from.now) }
        ensures number { self.new.number ≡ self.old.number }
        ensures edited { PutsIn self.old.block self.new.block i at from.now }
    {
        let len = self.value_len(i);
        put_in(&mut self.block, i, len, at, from);
    }
}

impl FileParts {
    /// How many bytes of a record no attribute takes.
    pub fn free_bytes(&self, place: usize) -> usize
        requires { place < length (held_of self.now) }
        ensures { RecordHeld self.now place (λ held. result + used_size held.block ≡ 1024) }
    {
        self.held[place].free_bytes()
    }

    /// The id that is the next attribute's in a record, as its header says.
    pub fn next_id(&self, place: usize) -> u16
        requires { place < length (held_of self.now) }
        ensures { RecordHeld self.now place (λ held. result ≡ (header_of held.block).next_id) }
    {
        self.held[place].next_id()
    }

    /// Puts an attribute into the record that is held at `place`, before its attribute `i` or behind all, and stages the record, with
    /// its copy where the mirror has one. The next attribute id rises where the attribute has that very id; all else stays, and the parts
    /// are those of the image then.
    ///
    /// # Errors
    ///
    /// `Memory` where there is none for four more staged sectors. Nothing is staged, and of what is held only the numbers are told.
    pub fn insert_attribute<D: Disk>(
        &mut self,
        mft: &mut Mft<'_, D>,
        place: usize,
        i: usize,
        attr: &[u8],
    ) -> Result<(), FileNo>
        requires place { RecordHeld self.old place (λ held. i ≤ length (attributes held.block)) }
        requires one { IsOneAttribute attr.now }
        requires fits { RecordHeld self.old place (λ held. used_size held.block + length attr.now ≤ 1024) }
        requires mirror { IsMirrorInside (mounted_of D.Disk mft.old) }
        requires sound { is_mft_broken D.Disk mft.old ≡ false }
        ensures inserted { OnOk result (IsTrue (view D.Disk mft.old).told → IsApart (view D.Disk mft.old).layout
            → IsWholeFile (view D.Disk mft.old) self.old
            → RecordHeld self.old place (λ held. 1024 * held.number + 1024 ≤ (view D.Disk mft.old).layout.initialized
            → InsertsAttribute (view D.Disk mft.old) (view D.Disk mft.new) held.number i attr.now)) }
        ensures held { OnOk result (IsTrue (view D.Disk mft.old).told → IsApart (view D.Disk mft.old).layout
            → IsWholeFile (view D.Disk mft.old) self.old
            → RecordHeld self.old place (λ held. 1024 * held.number + 1024 ≤ (view D.Disk mft.old).layout.initialized)
            → IsWholeFile (view D.Disk mft.new) self.new) }
        ensures same { HoldsSame self.old self.new }
        ensures room { OnOk result (RecordHeld self.old place (λ was. RecordHeld self.new place (λ held.
            used_size held.block ≡ used_size was.block + length attr.now))) }
        ensures count { OnOk result (RecordHeld self.old place (λ was. RecordHeld self.new place (λ held.
            length (attributes held.block) ≡ length (attributes was.block) + 1))) }
        ensures stages { OnOk result (RecordHeld self.old place (λ held.
            MftStages D.Disk (record_places (view D.Disk mft.old).layout held.number) 4 mft.old mft.new)) }
        ensures kept { OnErr result (MftReserves D.Disk mft.old mft.new) }
        ensures memory { IfErr result (λ no. no ≡ FileNo.Memory) }
    {
        let held = &mut self.held[place];
        held.insert_attribute(i, attr);
        held.stage(mft)
    }

    /// Takes attribute `i` out of the record that is held at `place`, and stages the record, with its copy where the mirror has one. All
    /// else stays, and the parts are those of the image then.
    ///
    /// # Errors
    ///
    /// `Memory` where there is none for four more staged sectors. Nothing is staged, and of what is held only the numbers are told.
    pub fn remove_attribute<D: Disk>(
        &mut self,
        mft: &mut Mft<'_, D>,
        place: usize,
        i: usize,
    ) -> Result<(), FileNo>
        requires place { RecordHeld self.old place (λ held. i < length (attributes held.block)) }
        requires mirror { IsMirrorInside (mounted_of D.Disk mft.old) }
        requires sound { is_mft_broken D.Disk mft.old ≡ false }
        ensures removed { OnOk result (IsTrue (view D.Disk mft.old).told → IsApart (view D.Disk mft.old).layout
            → IsWholeFile (view D.Disk mft.old) self.old
            → RecordHeld self.old place (λ held. 1024 * held.number + 1024 ≤ (view D.Disk mft.old).layout.initialized
            → RemovesAttribute (view D.Disk mft.old) (view D.Disk mft.new) held.number i)) }
        ensures held { OnOk result (IsTrue (view D.Disk mft.old).told → IsApart (view D.Disk mft.old).layout
            → IsWholeFile (view D.Disk mft.old) self.old
            → RecordHeld self.old place (λ held. 1024 * held.number + 1024 ≤ (view D.Disk mft.old).layout.initialized)
            → IsWholeFile (view D.Disk mft.new) self.new) }
        ensures same { HoldsSame self.old self.new }
        ensures room { OnOk result (RecordHeld self.old place (λ was. RecordHeld self.new place (λ held.
            used_size held.block + attribute_len was.block (attribute_place was.block i) ≡ used_size was.block))) }
        ensures stages { OnOk result (RecordHeld self.old place (λ held.
            MftStages D.Disk (record_places (view D.Disk mft.old).layout held.number) 4 mft.old mft.new)) }
        ensures kept { OnErr result (MftReserves D.Disk mft.old mft.new) }
        ensures memory { IfErr result (λ no. no ≡ FileNo.Memory) }
    {
        let held = &mut self.held[place];
        held.remove_attribute(i);
        held.stage(mft)
    }

    /// Puts an attribute in the place of attribute `i` of the record that is held at `place`, and stages the record once, with its copy
    /// where the mirror has one. The next attribute id rises where the attribute has that very id; all else stays, and the parts are those
    /// of the image then.
    ///
    /// # Errors
    ///
    /// `Memory` where there is none for four more staged sectors. Nothing is staged, and of what is held only the numbers are told.
    pub fn replace_attribute<D: Disk>(
        &mut self,
        mft: &mut Mft<'_, D>,
        place: usize,
        i: usize,
        attr: &[u8],
    ) -> Result<(), FileNo>
        requires place { RecordHeld self.old place (λ held. i < length (attributes held.block)) }
        requires one { IsOneAttribute attr.now }
        requires fits { RecordHeld self.old place (λ held. used_size held.block + length attr.now
            ≤ 1024 + attribute_len held.block (attribute_place held.block i)) }
        requires mirror { IsMirrorInside (mounted_of D.Disk mft.old) }
        requires sound { is_mft_broken D.Disk mft.old ≡ false }
        ensures replaced { OnOk result (IsTrue (view D.Disk mft.old).told → IsApart (view D.Disk mft.old).layout
            → IsWholeFile (view D.Disk mft.old) self.old
            → RecordHeld self.old place (λ held. 1024 * held.number + 1024 ≤ (view D.Disk mft.old).layout.initialized
            → ReplacesAttribute (view D.Disk mft.old) (view D.Disk mft.new) held.number i attr.now)) }
        ensures held { OnOk result (IsTrue (view D.Disk mft.old).told → IsApart (view D.Disk mft.old).layout
            → IsWholeFile (view D.Disk mft.old) self.old
            → RecordHeld self.old place (λ held. 1024 * held.number + 1024 ≤ (view D.Disk mft.old).layout.initialized)
            → IsWholeFile (view D.Disk mft.new) self.new) }
        ensures same { HoldsSame self.old self.new }
        ensures room { OnOk result (RecordHeld self.old place (λ was. RecordHeld self.new place (λ held.
            used_size held.block + attribute_len was.block (attribute_place was.block i) ≡ used_size was.block + length attr.now))) }
        ensures stages { OnOk result (RecordHeld self.old place (λ held.
            MftStages D.Disk (record_places (view D.Disk mft.old).layout held.number) 4 mft.old mft.new)) }
        ensures kept { OnErr result (MftReserves D.Disk mft.old mft.new) }
        ensures memory { IfErr result (λ no. no ≡ FileNo.Memory) }
    {
        let held = &mut self.held[place];
        held.replace_attribute(i, attr);
        held.stage(mft)
    }

    /// Gives the value of attribute `i` of the record that is held at `place`, a resident one, the length `len` in bytes, at most 65,536,
    /// with zeros behind it where it grows, and stages the record, with its copy where the mirror has one. All else stays, and the parts
    /// are those of the image then.
    ///
    /// # Errors
    ///
    /// `Memory` where there is none for four more staged sectors. Nothing is staged, and of what is held only the numbers are told.
    pub fn resize_attribute<D: Disk>(
        &mut self,
        mft: &mut Mft<'_, D>,
        place: usize,
        i: usize,
        len: usize,
    ) -> Result<(), FileNo>
        requires place { RecordHeld self.old place (λ held. i < length (attributes held.block)) }
        requires resident { RecordHeld self.old place (λ held. IsSome (value_of (attribute_in held.block i).body)) }
        requires most { len ≤ 65536 }
        requires fits { RecordHeld self.old place (λ held. used_size held.block + len_with held.block i len
            ≤ 1024 + attribute_len held.block (attribute_place held.block i)) }
        requires mirror { IsMirrorInside (mounted_of D.Disk mft.old) }
        requires sound { is_mft_broken D.Disk mft.old ≡ false }
        ensures resized { OnOk result (IsTrue (view D.Disk mft.old).told → IsApart (view D.Disk mft.old).layout
            → IsWholeFile (view D.Disk mft.old) self.old
            → RecordHeld self.old place (λ held. 1024 * held.number + 1024 ≤ (view D.Disk mft.old).layout.initialized
            → ResizesAttribute (view D.Disk mft.old) (view D.Disk mft.new) held.number i len)) }
        ensures held { OnOk result (IsTrue (view D.Disk mft.old).told → IsApart (view D.Disk mft.old).layout
            → IsWholeFile (view D.Disk mft.old) self.old
            → RecordHeld self.old place (λ held. 1024 * held.number + 1024 ≤ (view D.Disk mft.old).layout.initialized)
            → IsWholeFile (view D.Disk mft.new) self.new) }
        ensures same { HoldsSame self.old self.new }
        ensures room { OnOk result (RecordHeld self.old place (λ was. RecordHeld self.new place (λ held.
            used_size held.block + attribute_len was.block (attribute_place was.block i)
            ≡ used_size was.block + len_with was.block i len))) }
        ensures stages { OnOk result (RecordHeld self.old place (λ held.
            MftStages D.Disk (record_places (view D.Disk mft.old).layout held.number) 4 mft.old mft.new)) }
        ensures kept { OnErr result (MftReserves D.Disk mft.old mft.new) }
        ensures memory { IfErr result (λ no. no ≡ FileNo.Memory) }
    {
        let held = &mut self.held[place];
        held.resize_attribute(i, len);
        held.stage(mft)
    }

    /// Puts bytes into the value of attribute `i` of the record that is held at `place`, a resident one, from its byte `at` on, and stages
    /// the record once, with its copy where the mirror has one. The value is as long as they need, at most 65,536 bytes, with zeros before
    /// them where it was shorter, and it never gets shorter. All else stays, and the parts are those of the image then.
    ///
    /// # Errors
    ///
    /// `Memory` where there is none for four more staged sectors. Nothing is staged, and of what is held only the numbers are told.
    pub fn put_in_value<D: Disk>(
        &mut self,
        mft: &mut Mft<'_, D>,
        place: usize,
        i: usize,
        at: usize,
        from: &[u8],
    ) -> Result<(), FileNo>
        requires place { RecordHeld self.old place (λ held. i < length (attributes held.block)) }
        requires most { at + length from.now ≤ 65536 }
        requires fits { RecordHeld self.old place (λ held. HasRoomToPut held.block i at (length from.now)) }
        requires mirror { IsMirrorInside (mounted_of D.Disk mft.old) }
        requires sound { is_mft_broken D.Disk mft.old ≡ false }
        ensures put { OnOk result (IsTrue (view D.Disk mft.old).told → IsApart (view D.Disk mft.old).layout
            → IsWholeFile (view D.Disk mft.old) self.old
            → RecordHeld self.old place (λ held. 1024 * held.number + 1024 ≤ (view D.Disk mft.old).layout.initialized
            → PutsInValue (view D.Disk mft.old) (view D.Disk mft.new) held.number i at from.now)) }
        ensures held { OnOk result (IsTrue (view D.Disk mft.old).told → IsApart (view D.Disk mft.old).layout
            → IsWholeFile (view D.Disk mft.old) self.old
            → RecordHeld self.old place (λ held. 1024 * held.number + 1024 ≤ (view D.Disk mft.old).layout.initialized)
            → IsWholeFile (view D.Disk mft.new) self.new) }
        ensures same { HoldsSame self.old self.new }
        ensures room { OnOk result (RecordHeld self.old place (λ was. RecordHeld self.new place (λ held.
            IsRoomAfterPut was.block held.block i at (length from.now)))) }
        ensures stages { OnOk result (RecordHeld self.old place (λ held.
            MftStages D.Disk (record_places (view D.Disk mft.old).layout held.number) 4 mft.old mft.new)) }
        ensures kept { OnErr result (MftReserves D.Disk mft.old mft.new) }
        ensures memory { IfErr result (λ no. no ≡ FileNo.Memory) }
    {
        let held = &mut self.held[place];
        held.put_in_value(i, at, from);
        held.stage(mft)
    }
}
