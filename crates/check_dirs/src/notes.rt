//! The names of all files, by their directories, and the files whose indexes have to be looked at.
ghost use Rattle.std.specs.Prelude.{◌≡◌, ◌==◌, filter};
ghost use Rattle.std.specs.List.Sorted.{IsNonDecreasingBy};

/// Where a name of a file stands.
#[derive(Clone, Copy, Debug, PartialEq, Eq)]
pub struct NameNote {
    /// The number of the directory that has the name.
    pub directory: u64,
    /// The reference of the file that has the name.
    pub file: u64,
    /// The record that holds the name.
    pub holder: u64,
    /// The place of its attribute among those of the record.
    pub place: usize,
}

/// The names of all files, by their directories.
#[derive(Debug, Drop)]
pub struct Notes {
    // sorted by their directories
    pub(crate) names: Vec<NameNote>,
    /// The files whose indexes have to be looked at, by rising number: the directories, `$Secure`, and what stands in
    /// `$Extend`.
    pub wanted: Vec<u64>,
    ghost sorted: { IsNonDecreasingBy (λ note. note.directory) names.items },
}

// Of notes that are sorted by their directories, those of one.
fn split_directory(sorted: &[NameNote], directory: u64) -> &[NameNote]
    requires { IsNonDecreasingBy (λ note. note.directory) sorted.now }
    ensures { result.now ≡ filter (λ note. note.directory == directory) sorted.now }
{
    let start = sorted.partition_point(|note| note.directory < directory);
    let from = &sorted[start..];
    let own = from.partition_point(|note| note.directory <= directory);
    &from[..own]
}

impl Notes {
    ghost use Rattle.check_dirs.specs.Notes.{notes_in};

    /// The notes of the names that stand in a directory, in the order of the files.
    pub fn names_in(&self, directory: u64) -> &[NameNote]
        ensures { result.now ≡ notes_in directory self.now }
    {
        split_directory(&self.names, directory)
    }
}
