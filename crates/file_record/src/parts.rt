//! The parts of a file: how many, and each of them.
ghost use Rattle.std.specs.Prelude.{◌≤◌, ◌^◌, vec_len};

use crate::Held;
use attr_view::AttrView;

/// The parts of a file: the records that hold them, by rising number.
#[derive(Drop)]
pub struct FileParts {
    pub(crate) number: u64,
    pub(crate) held: Vec<Held>,
    // no table has more records
    ghost few: { vec_len held ≤ 2 ^ 22 },
}

/// Where a part of a file is held: in which of the records, and which attribute of it.
#[derive(Clone, Copy, Debug)]
pub struct PartPlace {
    /// Which of the records that are held.
    pub record: usize,
    /// Which attribute in it.
    pub attribute: usize,
}

impl FileParts {
    ghost use Rattle.std.specs.Prelude.{◌≡◌, ◌+◌, ◌<◌, IsSomeAnd, Some, get_or, length, slice_get, take};
    ghost use Rattle.std.specs.List.{flat_map};
    ghost use Rattle.file_record.specs.declared.held.Held.{Held};
    ghost use Rattle.attr_view.specs.View.{attribute_of};
    ghost use Rattle.volume_def.specs.Files.{part_of};
    ghost use Rattle.file_record.specs.Held.{attributes_held, attributes_in, file_number, held_of, parts_held};

    /// The number of the file: that of its base record.
    pub fn number(&self) -> u64
        ensures { result ≡ file_number self.now }
    {
        self.number
    }

    /// The records that hold them, by rising number.
    pub fn records(&self) -> &[Held]
        ensures { result.now ≡ held_of self.now }
    {
        &self.held
    }

    /// How many parts are held.
    pub fn count(&self) -> usize
        ensures { result ≡ length (parts_held self.now) }
    {
        let mut count = 0;
        for held in &self.held {
            count += held.count;
        }
        count
    }

    /// A part, by record and place.
    pub fn attr(&self, i: usize) -> AttrView<'_>
        requires { i < length (parts_held self.now) }
        ensures attribute { slice_get (attributes_held self.now) i ≡ Some (attribute_of result) }
        ensures part { IsSomeAnd (slice_get (parts_held self.now) i) (λ part. part ≡ part_of part.holder (attribute_of result)) }
    {
        let place = self.place_of(i);
        self.held[place.record].view().attr(place.attribute)
    }

    /// Where a part is held.
    pub fn place_of(&self, i: usize) -> PartPlace
        requires { i < length (parts_held self.now) }
        ensures record { result.record < length (held_of self.now) }
        ensures place { i ≡ length (flat_map attributes_in (take result.record (held_of self.now))) + result.attribute }
        ensures attribute { (d : Held) → result.attribute < (get_or (held_of self.now) result.record d).count }
    {
        let mut left = i;
        let mut record = 0;
        'records: loop {
            let held = &self.held[record];
            if left < held.count {
                return PartPlace {
                    record,
                    attribute: left,
                };
            }
            left -= held.count;
            record += 1;
        }
    }
}
