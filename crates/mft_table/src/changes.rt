//! What was changed of the tables since the last commit, and its undoing.
ghost use Rattle.std.specs.Prelude.{◌≡◌, [], IsOk, OnErr, OnOk, length};
ghost use Rattle.cluster_bitmap.specs.Flags.{IsFree, IsTaken};
ghost use Rattle.mft_table.specs.Changes.{ShowAll, Shows, before, before_all, with_clusters_given, with_clusters_taken};
ghost use Rattle.mft_table.specs.Changes.{with_record_given, with_record_taken};

use crate::Mounted;
use std::alloc::AllocError;

/// A change of the tables, which tells how it is undone.
#[derive(Clone, Copy)]
pub enum Change {
    /// The clusters of a range were taken.
    Took { at: u64, len: u64 },
    /// The clusters of a range were given back.
    Gave { at: u64, len: u64 },
    /// The flag of a record was taken.
    TookRecord { number: u64 },
    /// The flag of a record was given back.
    GaveRecord { number: u64 },
}

/// Takes the clusters of a range, which are free, and notes it.
///
/// # Errors
///
/// There was no memory for the note; nothing was taken.
pub fn take_noted(
    changes: &mut Vec<Change>,
    mounted: &mut Mounted,
    at: u64,
    len: u64,
) -> Result<(), AllocError>
    requires free { IsFree mounted.old.clusters at len }
    requires shown { ShowAll mounted.old changes.old.items }
    ensures taken { OnOk result (mounted.new ≡ with_clusters_taken mounted.old at len) }
    ensures kept { OnErr result (mounted.new ≡ mounted.old) }
    ensures shown { ShowAll mounted.new changes.new.items }
    ensures before { before_all changes.new.items mounted.new ≡ before_all changes.old.items mounted.old }
    ensures count { length mounted.new.clusters ≡ length mounted.old.clusters }
{
    changes.reserve(1)?;
    changes.push_reserved(Change::Took { at, len });
    mounted.clusters.take(at, len);
    Ok(())
}

/// Gives the clusters of a range back, which are taken, and notes it.
///
/// # Errors
///
/// There was no memory for the note; nothing was given back.
pub fn give_noted(
    changes: &mut Vec<Change>,
    mounted: &mut Mounted,
    at: u64,
    len: u64,
) -> Result<(), AllocError>
    requires taken { IsTaken mounted.old.clusters at len }
    requires shown { ShowAll mounted.old changes.old.items }
    ensures given { OnOk result (mounted.new ≡ with_clusters_given mounted.old at len) }
    ensures kept { OnErr result (mounted.new ≡ mounted.old) }
    ensures shown { ShowAll mounted.new changes.new.items }
    ensures before { before_all changes.new.items mounted.new ≡ before_all changes.old.items mounted.old }
    ensures count { length mounted.new.clusters ≡ length mounted.old.clusters }
{
    changes.reserve(1)?;
    changes.push_reserved(Change::Gave { at, len });
    mounted.clusters.give(at, len);
    Ok(())
}

/// Takes the flag of a record, which is free, and notes it.
///
/// # Errors
///
/// There was no memory for the note; nothing was taken.
pub fn take_record_noted(
    changes: &mut Vec<Change>,
    mounted: &mut Mounted,
    number: u64,
) -> Result<(), AllocError>
    requires free { IsFree mounted.old.records number 1 }
    requires shown { ShowAll mounted.old changes.old.items }
    ensures taken { OnOk result (mounted.new ≡ with_record_taken mounted.old number) }
    ensures kept { OnErr result (mounted.new ≡ mounted.old) }
    ensures shown { ShowAll mounted.new changes.new.items }
    ensures before { before_all changes.new.items mounted.new ≡ before_all changes.old.items mounted.old }
    ensures count { length mounted.new.records ≡ length mounted.old.records }
{
    changes.reserve(1)?;
    changes.push_reserved(Change::TookRecord { number });
    mounted.records.take(number, 1);
    Ok(())
}

/// Gives back the flag of a record, which is taken, and notes it.
///
/// # Errors
///
/// There was no memory for the note; nothing was given back.
pub fn give_record_noted(
    changes: &mut Vec<Change>,
    mounted: &mut Mounted,
    number: u64,
) -> Result<(), AllocError>
    requires taken { IsTaken mounted.old.records number 1 }
    requires shown { ShowAll mounted.old changes.old.items }
    ensures given { OnOk result (mounted.new ≡ with_record_given mounted.old number) }
    ensures kept { OnErr result (mounted.new ≡ mounted.old) }
    ensures shown { ShowAll mounted.new changes.new.items }
    ensures before { before_all changes.new.items mounted.new ≡ before_all changes.old.items mounted.old }
    ensures count { length mounted.new.records ≡ length mounted.old.records }
{
    changes.reserve(1)?;
    changes.push_reserved(Change::GaveRecord { number });
    mounted.records.give(number, 1);
    Ok(())
}

// Undoes a change.
fn undo(change: Change, mounted: &mut Mounted)
    requires { Shows mounted.old change }
    ensures { mounted.new ≡ before change mounted.old }
{
    match change {
        Change::Took { at, len } => mounted.clusters.give(at, len),
        Change::Gave { at, len } => mounted.clusters.take(at, len),
        Change::TookRecord { number } => mounted.records.give(number, 1),
        Change::GaveRecord { number } => mounted.records.take(number, 1),
    }
}

/// Undoes all changes, the last first. It takes no memory, and the time of the changes.
pub fn undo_all(changes: &mut Vec<Change>, mounted: &mut Mounted)
    requires { ShowAll mounted.old changes.old.items }
    ensures none { changes.new.items ≡ [] }
    ensures undone { mounted.new ≡ before_all changes.old.items mounted.old }
{
    'changes: while let Some(change) = changes.pop() {
        undo(change, mounted);
    }
}
