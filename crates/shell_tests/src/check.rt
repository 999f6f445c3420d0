//! The clauses on records, clusters and the table of case, on the volume that `format 2048 4096 1 DATA` makes, whole and
//! damaged. It has 256 clusters, of which 135 are owned, and 64 records, of which 14 are in use.
use check_records::check_records;
use laid_volumes::damage::break_clause;
use laid_volumes::made::{disk_of, failing_disk, made_by, refusal, volume};
use mft_table::{MountNo, Mounted};
use std::alloc::Global;
use std::test;

// The boot sector, record 0, each record, and then a sector of each bitmap and the table of case.
const READS: u64 = 1 + 2 + 2 * 64 + 1 + 1 + 256;

// Whether the tables are those of the volume.
fn are_right(mounted: &Mounted) -> bool {
    mounted.geometry.clusters == 256
        && mounted.geometry.mft == 2
        && mounted.initialized == 65_536
        && mounted.table.runs().len() == 1
        && mounted.clusters.count() == 256
        && mounted.clusters.count_free() == 121
        && mounted.records.count() == 64
        && mounted.records.count_free() == 50
        && mounted.upcase.fold(0x61) == 0x41
        && mounted.upcase.fold(0x5F) == 0x5F
}

// Whether the tables of the volume are given.
fn gives_tables(alloc: Global, image: &[u8]) -> Result<bool, test::Fail> {
    let mut disk = disk_of(alloc, image)?;
    let mounted = check_records(alloc, &mut disk)?;
    Ok(are_right(&mounted) && disk.writes().is_empty())
}

#[test]
fn a_new_volume_is_taken(rt: HostRuntime) -> Result<(), test::Fail> {
    let image = volume(rt.alloc())?;
    assert!(rt; gives_tables(rt.alloc(), &image)?);
    Ok(())
}

// The clusters that no item of a new volume has, by the table of items: each is rounded up to clusters.
#[test]
fn each_size_of_clusters_is_taken(rt: HostRuntime) -> Result<(), test::Fail> {
    for (words, free) in [
        ("format 2048 512 1 A", 989),
        ("format 2048 1024 1 A", 493),
        ("format 2048 2048 1 A", 245),
        ("format 2048 4096 1 A", 121),
    ] {
        let mut disk = disk_of(rt.alloc(), &made_by(rt.alloc(), words)?)?;
        let mounted = check_records(rt.alloc(), &mut disk)?;
        assert_eq!(rt; mounted.clusters.count_free(), free, "{words}");
    }
    Ok(())
}

// What breaks the clauses on indexes alone is not asked.
#[test]
fn the_indexes_are_not_read(rt: HostRuntime) -> Result<(), test::Fail> {
    let mut image = volume(rt.alloc())?;
    break_clause(&mut image, 12);
    assert!(rt; gives_tables(rt.alloc(), &image)?);
    Ok(())
}

// The clauses in their order, the last first, and the least number that breaks each.
const BROKEN: [(u8, u64); 13] = [
    (13, 10),
    (12, 10),
    (11, 24),
    (10, 24),
    (9, 30),
    (8, 200),
    (7, 19),
    (6, 2),
    (5, 4),
    (4, 4),
    (3, 5),
    (2, 0),
    (1, 7),
];

// Each clause is broken beside all that stand behind it, by two numbers where it can be.
#[test]
fn the_first_clause_is_told(rt: HostRuntime) -> Result<(), test::Fail> {
    let mut image = volume(rt.alloc())?;
    for (clause, number) in BROKEN {
        break_clause(&mut image, clause);
        let told = if clause == 12 { 13 } else { clause };
        let wanted = MountNo::Refused {
            clause: told,
            number,
        };
        assert_eq!(rt; refusal(rt.alloc(), &image)?, Some(wanted), "S{clause}");
    }
    Ok(())
}

// Each clause is broken alone.
#[test]
fn each_clause_is_told(rt: HostRuntime) -> Result<(), test::Fail> {
    let whole = volume(rt.alloc())?;
    for (clause, number) in BROKEN {
        let mut image = whole.as_slice().to_vec(rt.alloc())?;
        break_clause(&mut image, clause);
        let wanted = MountNo::Refused { clause, number };
        let wanted = if clause == 12 { None } else { Some(wanted) };
        assert_eq!(rt; refusal(rt.alloc(), &image)?, wanted, "S{clause}");
    }
    Ok(())
}

// The first read that no clause up to this one asks for, behind the boot sector, record 0, each record, and a sector of each
// bitmap.
fn unasked_read(clause: u8) -> u64 {
    match clause {
        1 => 2,
        2 => 4,
        3..=7 => 132,
        8 => 133,
        _ => 134,
    }
}

// Each clause is broken alone, and the first read fails that no clause up to it asks for.
#[test]
fn a_refused_volume_is_read_no_further(rt: HostRuntime) -> Result<(), test::Fail> {
    let whole = volume(rt.alloc())?;
    for (clause, number) in BROKEN {
        if clause == 12 {
            continue;
        }
        let mut image = whole.as_slice().to_vec(rt.alloc())?;
        break_clause(&mut image, clause);
        let wanted = MountNo::Refused { clause, number };
        let told = failing(rt.alloc(), &image, unasked_read(clause))?;
        assert_eq!(rt; told, Some(wanted), "S{clause}");
    }
    Ok(())
}

// Why the volume is refused on a disk of which one read fails.
fn failing(alloc: Global, image: &[u8], number: u64) -> Result<Option<MountNo>, test::Fail> {
    let mut disk = failing_disk(alloc, image, number)?;
    match check_records(alloc, &mut disk) {
        Ok(_) => Ok(None),
        Err(no) => Ok(Some(no)),
    }
}

#[test]
fn each_failing_read_is_told(rt: HostRuntime) -> Result<(), test::Fail> {
    let image = volume(rt.alloc())?;
    for number in 1..=READS {
        assert_eq!(rt;
            failing(rt.alloc(), &image, number)?,
            Some(MountNo::Device),
            "{number}"
        );
    }
    assert_eq!(rt; failing(rt.alloc(), &image, READS + 1)?, None);
    Ok(())
}
