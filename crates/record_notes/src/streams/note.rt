//! Parts of a stream noted, attribute by attribute, record by record.
ghost use Rattle.std.specs.Prelude.{◌≡◌, ◌+◌, ◌++◌, ◌∷◌, ◌^◌, ◌<◌, ◌≤◌, ℕ, List, [], Some, IfOk, OnOk, if◌then◌else◌};
ghost use Rattle.std.specs.Int.{div_ceil};
ghost use Rattle.attr_view.specs.View.{attribute_of, attributes_of, viewed_block};
ghost use Rattle.volume_def.specs.Files.{Part, Records, file_of, part_of, record_of};
ghost use Rattle.record_notes.specs.Streams.{HasPlaces, NotesStream, SamePlaces, StreamsNote, places_in, unnamed_parts};

use crate::streams::attribute::{first_vcn, is_unnamed, note_first};
use crate::streams::{Placement, Spots, StreamNote, Streams};
use attr_view::{AttrView, RecordView};
use data_runs::read_runs;
use ntfs_def::kinds::{BITMAP, DATA};
use ntfs_def::lengths::CASE_TABLE;
use ntfs_def::records::{CLUSTER_BITMAP, MFT, UPCASE};
use std::alloc::{AllocError, Global};

impl StreamNote {
    /// No part is noted yet, of a stream of which the first `len` bytes are needed, in clusters of `cluster` bytes.
    ///
    /// # Errors
    ///
    /// There was no memory for where they lie.
    pub fn new(alloc: Global, len: u64, cluster: u64) -> Result<StreamNote, AllocError>
        requires some { 0 < cluster }
        requires few { len ≤ 2 ^ 32 }
        ensures none { IfOk result (NotesStream []) }
        ensures places { IfOk result (λ note. places_in note ≡ div_ceil len cluster) }
    {
        let spots = Spots::new(alloc, len.div_ceil(cluster))?;
        Ok(StreamNote {
            first: None,
            placement: Placement::new(),
            spots,
        })
    }

    // One more part.
    fn note_part(&mut self, alloc: Global, attribute: &AttrView<'_>) -> Result<(), AllocError>
        ensures places { places_in self.new ≡ places_in self.old }
        ensures noted { OnOk result ((n : ℕ) (extents : List Part) → NotesStream extents self.old
            → NotesStream (extents ++ part_of n (attribute_of attribute.now) ∷ []) self.new) }
    {
        note_first(alloc, &mut self.first, attribute)?;
        let Some(text) = attribute.runs() else {
            self.placement.in_clusters = false;
            return Ok(());
        };
        let Some(runs) = read_runs(alloc, text)? else {
            return Ok(());
        };
        self.placement.note_runs(&runs);
        self.spots.note_runs(first_vcn(attribute), &runs);
        Ok(())
    }

    // One attribute more of the file, which is a part where it is of the type and has no name.
    fn note_attribute(
        &mut self,
        alloc: Global,
        kind: u32,
        attribute: &AttrView<'_>,
    ) -> Result<(), AllocError>
        ensures places { places_in self.new ≡ places_in self.old }
        ensures noted { OnOk result ((n : ℕ) (extents : List Part) → NotesStream extents self.old
            → NotesStream (extents ++ unnamed_parts kind n (attribute_of attribute.now ∷ [])) self.new) }
    {
        if !is_unnamed(attribute, kind) {
            return Ok(());
        }
        self.note_part(alloc, attribute)?;
        Ok(())
    }

    /// The parts, of the type and without a name, that a record of the file holds.
    ///
    /// # Errors
    ///
    /// There was no memory for a value, or for the runs of an attribute.
    pub fn note_record(
        &mut self,
        alloc: Global,
        kind: u32,
        view: &RecordView<'_>,
    ) -> Result<(), AllocError>
        ensures places { places_in self.new ≡ places_in self.old }
        ensures noted { OnOk result ((n : ℕ) (extents : List Part) → NotesStream extents self.old
            → NotesStream (extents ++ unnamed_parts kind n (attributes_of view.now)) self.new) }
    {
        for attribute in view.attributes() {
            self.note_attribute(alloc, kind, &attribute)?;
        }
        Ok(())
    }

    // The parts that a record holds, where it is one of the file.
    fn note_own(
        &mut self,
        alloc: Global,
        own: bool,
        kind: u32,
        view: &RecordView<'_>,
    ) -> Result<(), AllocError>
        ensures places { places_in self.new ≡ places_in self.old }
        ensures noted { OnOk result ((n : ℕ) (extents : List Part) → NotesStream extents self.old
            → NotesStream (extents ++ (if own then unnamed_parts kind n (attributes_of view.now) else [])) self.new) }
    {
        if !own {
            return Ok(());
        }
        self.note_record(alloc, kind, view)?;
        Ok(())
    }
}

impl Streams {
    /// No record is noted yet, of a volume of so many clusters and records, in clusters of so many bytes.
    ///
    /// # Errors
    ///
    /// There was no memory for where the clusters of the streams lie.
    pub fn new(
        alloc: Global,
        cluster_bytes: u64,
        clusters: u64,
        count: u64,
    ) -> Result<Streams, AllocError>
        requires some { 0 < cluster_bytes }
        requires clusters { clusters ≤ 2 ^ 26 }
        requires records { count ≤ 2 ^ 22 }
        ensures none { IfOk result (λ streams. (records : Records) → StreamsNote records 0 streams) }
        ensures places { IfOk result (HasPlaces clusters count cluster_bytes) }
    {
        let cluster_bits = StreamNote::new(alloc, clusters.div_ceil(8), cluster_bytes)?;
        let record_bits = StreamNote::new(alloc, count.div_ceil(8), cluster_bytes)?;
        let case_table = StreamNote::new(alloc, CASE_TABLE as u64, cluster_bytes)?;
        Ok(Streams {
            cluster_bits,
            record_bits,
            case_table,
        })
    }

    /// Notes the parts that a record in use holds, of this file.
    ///
    /// # Errors
    ///
    /// There was no memory for a value, or for the runs of an attribute.
    pub fn note(
        &mut self,
        alloc: Global,
        file: u64,
        view: &RecordView<'_>,
    ) -> Result<(), AllocError>
        ensures places { SamePlaces self.old self.new }
        ensures noted { OnOk result ((records : Records) (n : ℕ) → records.record_at n ≡ Some (record_of n (viewed_block view.now))
            → file_of n (record_of n (viewed_block view.now)) ≡ file
            → StreamsNote records n self.old → StreamsNote records (n + 1) self.new) }
    {
        self.cluster_bits
            .note_own(alloc, file == CLUSTER_BITMAP, DATA, view)?;
        self.record_bits.note_own(alloc, file == MFT, BITMAP, view)?;
        self.case_table.note_own(alloc, file == UPCASE, DATA, view)?;
        Ok(())
    }
}
