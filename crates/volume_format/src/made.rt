//! The bytes of a new volume that are made in memory: its boot sector, its table of records, and the index record of its
//! root. Their length is the same on each volume.
ghost use Rattle.std.specs.Prelude.{◌≡◌, IfOk};
ghost use Rattle.volume_format.specs.Made.{AreMade, IsTable};
ghost use Rattle.volume_format.specs.Options.{AreInRange, plan_of};

use crate::boot::new_boot_sector;
use crate::root::fill_root_node;
use crate::stored::fill_stored;
use crate::{FormatOptions, Places};
use std::alloc::{AllocError, Global};

/// The records of the table.
const RECORDS: usize = 64;

/// The plan of a new volume, and the bytes that are made in memory.
#[derive(Drop)]
pub struct Made {
    pub places: Places,
    pub boot: [u8; 512],
    pub table: Vec<u8>,
    pub root: [u8; 4096],
}

// The plan that options choose.
fn places_of(alloc: Global, options: &FormatOptions) -> Result<Places, AllocError>
    requires { AreInRange options.now.sectors options.now }
    ensures { IfOk result (λ places. places ≡ plan_of options.now) }
{
    let clusters = options.sectors / u64::from(options.cluster / 512);
    Places::new(alloc, u64::from(options.cluster), clusters, &options.label)
}

// The blocks of the table, one behind the other.
fn table_of(alloc: Global, places: &Places) -> Result<Vec<u8>, AllocError>
    ensures { IfOk result (λ table. IsTable places.now table.items) }
{
    let mut table = Vec::new(alloc);
    let mut block = [0; 1024];
    for n in 0..RECORDS {
        fill_stored(alloc, places, n, &mut block)?;
        table.extend_from_slice(&block)?;
    }
    Ok(table)
}

/// Makes what a new volume with these options holds.
pub fn make(alloc: Global, options: &FormatOptions) -> Result<Made, AllocError>
    requires { AreInRange options.now.sectors options.now }
    ensures places { IfOk result (λ made. made.places ≡ plan_of options.now) }
    ensures made { IfOk result (λ made. AreMade options.now made.boot made.table.items made.root) }
{
    let places = places_of(alloc, options)?;
    let boot = new_boot_sector(options, &places);
    let table = table_of(alloc, &places)?;
    let mut root = [0; 4096];
    fill_root_node(alloc, &mut root)?;
    Ok(Made {
        places,
        boot,
        table,
        root,
    })
}
