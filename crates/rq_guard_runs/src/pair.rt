//! A file and its guard, as they are read.
ghost use Rattle.std.specs.Prelude.{◌≡◌, [], All, false, None, option_map, IfOk, IfErr, IfNone, IfSome};
ghost use Rattle.rq_streams.specs.Counted.{failed_count, inner};
ghost use Rattle.rq_streams.specs.Ends.{failed_calls};
ghost use Rattle.rq_cast.specs.Received.{wish_over};
ghost use Rattle.rq_guard.specs.Checking.{IsFileDamage};
ghost use Rattle.rq_guard.specs.Damage.{IsList};
ghost use Rattle.rq_guard.specs.ListReading.{ReadsLists};
ghost use Rattle.rq_guard.specs.Lists.{listed_of};
ghost use Rattle.rq_guard.specs.StreamReading.{FindsFirst};
ghost use Rattle.rq_devices.specs.Failed.{Fails, StopsReading};
ghost use Rattle.rq_guard_runs.specs.Guards.{HasLists, Finds};
ghost use Rattle.rq_guard_runs.specs.Found.{is_whole_finding};
ghost use Rattle.rq_guard_runs.specs.Pairs.{in_file, in_guard};
ghost use Rattle.rq_devices.specs.Placed.{Contents, IsEmpty};

use crate::findings::Findings;
use rq_cells::{Head, STREAM_LENGTH, Wanted};
use rq_devices::{Devices, Teller, Told};
use rq_guard::{Decoding, DigestList, FileDamage, check_file, first_head, lists_in};
use rq_streams::{Counted, Stop};
use rq_words::Telling;
use std::alloc::Global;

/// A file and its guard, and what these are read by.
#[derive(Drop)]
pub struct Pair<'a, 'w> {
    pub alloc: Global,
    /// What the guard's cells are decoded by.
    pub by: Decoding<'a>,
    pub file: &'w str,
    /// The guard that is said, or none for that which is named by the file.
    pub said: Option<&'w str>,
    /// What is told.
    pub telling: Telling,
}

impl<'w> Pair<'_, 'w> {
    /// Opens the guard at its first byte.
    pub fn open_guard<D: Devices<'w>>(&self, devices: &mut D) -> Result<Counted<D::Reader>, Stop>
        ensures bytes { IfOk result (λ r. D.Reader.remaining (inner r) ≡ in_guard self.now (D.stands devices.old)) }
        ensures none { IfOk result (λ r. failed_count r ≡ 0) }
        ensures stops { IfErr result StopsReading }
        ensures counts { Fails (D.failed devices.old) (D.failed devices.new) (failed_calls result) }
        ensures stays { D.stands devices.new ≡ D.stands devices.old }
        ensures kept { D.placed devices.new ≡ D.placed devices.old }
        ensures filed { D.filed devices.new ≡ D.filed devices.old }
        ensures earlier { D.earlier devices.new ≡ D.earlier devices.old }
    {
        let reader = devices.open_guard(self.file, self.said)?;
        Ok(Counted::new(reader))
    }

    // The head of the guard's first cell, whose stream is the one that is guarded.
    fn first_head<D: Devices<'w>>(&self, devices: &mut D) -> Result<Option<Head>, Stop>
        ensures first { IfOk result (λ o. (after : Contents)
            × FindsFirst (wish_over self.now.by.table.now self.now.by.key.now [] []) (in_guard self.now (D.stands devices.old)) after o) }
        ensures stops { IfErr result StopsReading }
        ensures counts { Fails (D.failed devices.old) (D.failed devices.new) (failed_calls result) }
        ensures stays { D.stands devices.new ≡ D.stands devices.old }
        ensures kept { D.placed devices.new ≡ D.placed devices.old }
        ensures filed { D.filed devices.new ≡ D.filed devices.old }
        ensures earlier { D.earlier devices.new ≡ D.earlier devices.old }
    {
        let wanted = Wanted {
            key: self.by.key,
            table: self.by.table,
            name: &[],
            passed: &[],
        };
        let mut guard = self.open_guard(devices)?;
        let head = first_head(self.alloc, &wanted, &mut guard);
        devices.count(&guard);
        head
    }

    // The lists of all parts of a stream, where they are there.
    fn lists_of<D: Devices<'w>>(
        &self,
        stream: &[u8; STREAM_LENGTH],
        devices: &mut D,
    ) -> Result<Option<Vec<DigestList>>, Stop>
        ensures lists { IfOk result (λ o. (after : Contents)
            × ReadsLists self.now.by.table.now self.now.by.key.now stream.now (in_guard self.now (D.stands devices.old)) after (option_map (λ v. v.items) o)) }
        ensures usable { IfOk result (λ o. IfSome o (λ v. All (λ l. IsList (listed_of l)) v.items)) }
        ensures stops { IfErr result StopsReading }
        ensures counts { Fails (D.failed devices.old) (D.failed devices.new) (failed_calls result) }
        ensures stays { D.stands devices.new ≡ D.stands devices.old }
        ensures kept { D.placed devices.new ≡ D.placed devices.old }
        ensures filed { D.filed devices.new ≡ D.filed devices.old }
        ensures earlier { D.earlier devices.new ≡ D.earlier devices.old }
    {
        let mut guard = self.open_guard(devices)?;
        let lists = lists_in(self.alloc, &self.by, stream, &mut guard);
        devices.count(&guard);
        lists
    }

    // The lists of all parts of the stream that is guarded, where they are there.
    fn lists<D: Devices<'w>>(&self, devices: &mut D) -> Result<Option<Vec<DigestList>>, Stop>
        ensures lists { IfOk result (λ o. HasLists self.now.by.table.now self.now.by.key.now (in_guard self.now (D.stands devices.old))
            (option_map (λ v. v.items) o)) }
        ensures usable { IfOk result (λ o. IfSome o (λ v. All (λ l. IsList (listed_of l)) v.items)) }
        ensures stops { IfErr result StopsReading }
        ensures counts { Fails (D.failed devices.old) (D.failed devices.new) (failed_calls result) }
        ensures stays { D.stands devices.new ≡ D.stands devices.old }
        ensures kept { D.placed devices.new ≡ D.placed devices.old }
        ensures filed { D.filed devices.new ≡ D.filed devices.old }
        ensures earlier { D.earlier devices.new ≡ D.earlier devices.old }
    {
        let Some(head) = self.first_head(devices)? else {
            return Ok(None);
        };
        self.lists_of(&head.stream, devices)
    }

    /// Opens the file at its first byte, of which is told, and says whether it is there.
    pub fn open_file<D: Devices<'w>, T: Teller>(
        &self,
        devices: &mut D,
        teller: &mut T,
    ) -> Result<(D::Reader, bool), Stop>
        ensures bytes { IfOk result (λ r. D.Reader.remaining r.0 ≡ in_file self.now (D.stands devices.old)) }
        ensures absent { IfOk result (λ r. r.1 ≡ false → IsEmpty (in_file self.now (D.stands devices.old))) }
        ensures stops { IfErr result StopsReading }
        ensures counts { Fails (D.failed devices.old) (D.failed devices.new) (failed_calls result) }
        ensures stays { D.stands devices.new ≡ D.stands devices.old }
        ensures kept { D.placed devices.new ≡ D.placed devices.old }
        ensures filed { D.filed devices.new ≡ D.filed devices.old }
        ensures earlier { D.earlier devices.new ≡ D.earlier devices.old }
    {
        let (reader, is_there) = devices.open_if_there(self.file)?;
        teller.begin(self.telling, None, devices.length(&reader));
        Ok((reader, is_there))
    }

    // What is damaged of the file, and whether it is there.
    fn damage<D: Devices<'w>, T: Teller>(
        &self,
        lists: &[DigestList],
        devices: &mut D,
        teller: &mut T,
    ) -> Result<(FileDamage, bool), Stop>
        requires { All (λ l. IsList (listed_of l)) lists.now }
        ensures damage { IfOk result (λ r. (after : Contents) × IsFileDamage lists.now (in_file self.now (D.stands devices.old)) after r.0) }
        ensures absent { IfOk result (λ r. r.1 ≡ false → IsEmpty (in_file self.now (D.stands devices.old))) }
        ensures stops { IfErr result StopsReading }
        ensures counts { Fails (D.failed devices.old) (D.failed devices.new) (failed_calls result) }
        ensures stays { D.stands devices.new ≡ D.stands devices.old }
        ensures kept { D.placed devices.new ≡ D.placed devices.old }
        ensures filed { D.filed devices.new ≡ D.filed devices.old }
        ensures earlier { D.earlier devices.new ≡ D.earlier devices.old }
    {
        let (reader, is_there) = self.open_file(devices, teller)?;
        let mut file = Counted::new(Told::new(reader, teller));
        let damage = check_file(self.alloc, lists, &mut file);
        devices.count(&file);
        Ok((damage?, is_there))
    }

    /// What is known of the file by its guard, where that has the lists of all parts, before it is mended. The run begins
    /// here, as it is told.
    pub fn find<D: Devices<'w>, T: Teller>(
        &self,
        devices: &mut D,
        teller: &mut T,
    ) -> Result<Option<Findings>, Stop>
        ensures none { IfOk result (λ o. IfNone o (HasLists self.now.by.table.now self.now.by.key.now (in_guard self.now (D.stands devices.old)) None)) }
        ensures found { IfOk result (λ o. IfSome o (Finds self.now.by.table.now self.now.by.key.now (in_file self.now (D.stands devices.old))
            (in_guard self.now (D.stands devices.old)))) }
        ensures usable { IfOk result (λ o. IfSome o (λ found. All (λ l. IsList (listed_of l)) found.lists.items)) }
        ensures whole { IfOk result (λ o. IfSome o (λ found. found.is_mended ≡ is_whole_finding found)) }
        ensures stops { IfErr result StopsReading }
        ensures counts { Fails (D.failed devices.old) (D.failed devices.new) (failed_calls result) }
        ensures stays { D.stands devices.new ≡ D.stands devices.old }
        ensures kept { D.placed devices.new ≡ D.placed devices.old }
        ensures filed { D.filed devices.new ≡ D.filed devices.old }
        ensures earlier { D.earlier devices.new ≡ D.earlier devices.old }
    {
        teller.begin(self.telling, None, None);
        let Some(lists) = self.lists(devices)? else {
            return Ok(None);
        };
        let (damage, is_there) = self.damage(lists.as_slice(), devices, teller)?;
        let is_newer = devices.is_newer(self.file, self.said);
        let is_mended = is_there && damage.is_whole();
        Ok(Some(Findings {
            lists,
            damage,
            is_there,
            is_newer,
            is_mended,
        }))
    }
}
