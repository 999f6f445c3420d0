//! The names by which directories are reached, each read once, and where the ways up from them lead.
ghost use Rattle.std.specs.Prelude.{◌≡◌, IsTrue, OnOk, find, not};
ghost use Rattle.std.specs.Ordering.{nat_cmp};
ghost use Rattle.std.specs.BTreeMap.{get};
ghost use Rattle.std.specs.Option.{option_copied, option_map};
ghost use Rattle.volume_def.specs.Readable.{IsFile, IsDirectory};
ghost use Rattle.volume_def.specs.Sound.{IsSound};
ghost use Rattle.volume_def.specs.View.{VolumeView};
ghost use Rattle.mft_table.specs.Mft.{view};
ghost use Rattle.tree_model.specs.Tree.{is_dos};
ghost use Rattle.tree_read.specs.Above.{AreAbove, leads_hidden, name_above};
ghost use Rattle.tree_read.specs.Answered.{Finds};
ghost use Rattle.mft_table.specs.InUse.{IsInUse};

use crate::load::load_file;
use crate::outline::links_of;
use crate::stop::Stop;
use mft_table::Mft;
use ntfs_def::records::FIRST_ORDINARY;
use std::alloc::{AllocError, Global};
use std::collections::BTreeMap;
use tree_model::Link;
use vol_disk::Disk;

/// What was read of the directories above some files: of each the first name that is no DOS name, and where it was asked, whether
/// the way up from it leads to a record of the system.
#[derive(Drop)]
pub struct Above {
    names: BTreeMap<u64, Link>,
    leads: BTreeMap<u64, bool>,
}

// The first name that is no DOS name.
fn first_name(links: Vec<Link>) -> Option<Link>
    ensures { result ≡ find (λ link. not (is_dos link)) links.items }
{
    links.into_iter().find(|link| !link.is_dos())
}

impl Above {
    /// None yet.
    pub fn new(alloc: Global) -> Above
        ensures { (volume : VolumeView) → AreAbove volume result }
    {
        Above {
            names: BTreeMap::new(alloc),
            leads: BTreeMap::new(alloc),
        }
    }

    /// Reads the name of a directory, where it was not read.
    ///
    /// # Errors
    ///
    /// `Device` where the disk failed, and `Memory`.
    pub fn learn<D: Disk>(
        &mut self,
        alloc: Global,
        mft: &mut Mft<'_, D>,
        dir: u64,
    ) -> Result<(), Stop>
        requires volume { IsInUse D.Disk mft.old }
        requires file { IsTrue (view D.Disk mft.old).told → IsFile (view D.Disk mft.old) dir }
        requires above { IsTrue (view D.Disk mft.old).told → AreAbove (view D.Disk mft.old) self.old }
        ensures found { Finds D.Disk mft.old mft.new (λ volume _. AreAbove volume self.new
            × (get nat_cmp self.new.names dir ≡ name_above volume dir)) result }
    {
        if self.names.contains_key(&dir) {
            return Ok(());
        }
        let file = load_file(alloc, mft, dir)?;
        match first_name(links_of(alloc, &file.parts)?) {
            Some(link) => {
                self.names.insert(dir, link)?;
                Ok(())
            }
            None => Ok(()),
        }
    }

    /// The name by which a directory is reached, where it was read.
    pub fn name(&self, dir: u64) -> Option<&Link>
        ensures { option_copied result ≡ get nat_cmp self.now.names dir }
    {
        self.names.get(&dir)
    }

    /// The directory in which a directory stands.
    ///
    /// # Errors
    ///
    /// `Device` where the disk failed, and `Memory`.
    pub fn parent<D: Disk>(
        &mut self,
        alloc: Global,
        mft: &mut Mft<'_, D>,
        dir: u64,
    ) -> Result<Option<u64>, Stop>
        requires volume { IsInUse D.Disk mft.old }
        requires file { IsTrue (view D.Disk mft.old).told → IsFile (view D.Disk mft.old) dir }
        requires above { IsTrue (view D.Disk mft.old).told → AreAbove (view D.Disk mft.old) self.old }
        ensures found { Finds D.Disk mft.old mft.new (λ volume parent. AreAbove volume self.new
            × (parent ≡ option_map (λ link. link.parent) (name_above volume dir))) result }
    {
        self.learn(alloc, mft, dir)?;
        Ok(self.name(dir).map(|link| link.parent))
    }

    /// Whether the way up from a directory leads to a record of the system, where that was noted.
    pub fn leads(&self, dir: u64) -> Option<bool>
        ensures { result ≡ get nat_cmp self.now.leads dir }
    {
        self.leads.get(&dir).copied()
    }

    /// Notes whether the way up from a directory leads to a record of the system, of at most so many directories on it.
    ///
    /// # Errors
    ///
    /// Want of memory alone.
    pub fn note(&mut self, dir: u64, known: bool, most: u64) -> Result<(), AllocError>
        ensures { OnOk result ((volume : VolumeView) → IsSound volume → IsDirectory volume dir → leads_hidden volume dir ≡ known
            → AreAbove volume self.old → AreAbove volume self.new) }
    {
        let mut at = dir;
        let mut left = most;
        'steps: while left > 0 && at >= FIRST_ORDINARY && !self.leads.contains_key(&at) {
            self.leads.insert(at, known)?;
            match self.names.get(&at) {
                Some(link) => at = link.parent,
                None => return Ok(()),
            }
            left -= 1;
        }
        Ok(())
    }
}
