//! A file that is mended by its guard.
ghost use Rattle.std.specs.Prelude.{◌≡◌, ℕ, ◌+◌, All, None, IfOk, IfErr};
ghost use Rattle.rq_streams.specs.Counted.{failed_count, inner};
ghost use Rattle.rq_streams.specs.Ends.{failed_calls};
ghost use Rattle.rq_guard.specs.Damage.{IsList};
ghost use Rattle.rq_guard.specs.Lists.{listed_of};
ghost use Rattle.rq_devices.specs.Failed.{Fails, StopsReading};
ghost use Rattle.rq_guard_runs.specs.Guards.{RepairsFile, Replaces, FailsMending, is_mended};
ghost use Rattle.rq_guard_runs.specs.Pairs.{in_file, in_guard};

use crate::pair::Pair;
use rq_devices::{Devices, Place, Teller, Told, put};
use rq_guard::{DigestList, Mending, repair_part};
use rq_streams::{Counted, Stop};
use std::io::{Read, Write, sink};

// Whether all is mended.
fn is_mended(ended: &Result<bool, Stop>) -> bool
    ensures { result ≡ is_mended ended.now }
{
    matches!(ended, Ok(true))
}

impl<'w> Pair<'_, 'w> {
    // Writes the file as it was, part after part, as far as what stands in it and in its guard determine it. Answers
    // whether that is all of it.
    fn mend_from<D: Devices<'w>, F: Read, W: Write>(
        &self,
        lists: &[DigestList],
        file: &mut Counted<F>,
        devices: &mut D,
        writer: &mut Counted<W>,
    ) -> Result<bool, Stop>
        requires lists { All (λ l. IsList (listed_of l)) lists.now }
        requires reads { failed_count file.old ≡ 0 }
        requires writes { failed_count writer.old ≡ 0 }
        ensures repairs { IfOk result (RepairsFile self.now.by.table.now self.now.by.key.now lists.now (F.remaining (inner file.old))
            (in_guard self.now (D.stands devices.old)) (W.contents (inner writer.old)) (W.contents (inner writer.new))) }
        ensures stops { IfErr result StopsReading }
        ensures counts { (n : ℕ) × Fails (D.failed devices.old) (D.failed devices.new) n
            × (n + failed_count file.new + failed_count writer.new ≡ failed_calls result) }
        ensures stays { D.stands devices.new ≡ D.stands devices.old }
        ensures kept { D.placed devices.new ≡ D.placed devices.old }
        ensures filed { D.filed devices.new ≡ D.filed devices.old }
        ensures earlier { D.earlier devices.new ≡ D.earlier devices.old }
    {
        let mut mending = Mending::new(self.alloc)?;
        'parts: while (mending.mended_parts() as usize) < lists.len() {
            let mut guard = self.open_guard(devices)?;
            let mended = repair_part(
                self.alloc,
                &self.by,
                &mut mending,
                lists,
                file,
                &mut guard,
                writer,
            );
            devices.count(&guard);
            if !mended? {
                return Ok(false);
            }
        }
        Ok(mending.has_ended())
    }

    // The same, from the file's first byte on.
    fn mend<D: Devices<'w>, T: Teller, W: Write>(
        &self,
        lists: &[DigestList],
        devices: &mut D,
        teller: &mut T,
        writer: &mut Counted<W>,
    ) -> Result<bool, Stop>
        requires lists { All (λ l. IsList (listed_of l)) lists.now }
        requires writes { failed_count writer.old ≡ 0 }
        ensures repairs { IfOk result (RepairsFile self.now.by.table.now self.now.by.key.now lists.now (in_file self.now (D.stands devices.old))
            (in_guard self.now (D.stands devices.old)) (W.contents (inner writer.old)) (W.contents (inner writer.new))) }
        ensures stops { IfErr result StopsReading }
        ensures counts { (n : ℕ) × Fails (D.failed devices.old) (D.failed devices.new) n × (n + failed_count writer.new ≡ failed_calls result) }
        ensures stays { D.stands devices.new ≡ D.stands devices.old }
        ensures kept { D.placed devices.new ≡ D.placed devices.old }
        ensures filed { D.filed devices.new ≡ D.filed devices.old }
        ensures earlier { D.earlier devices.new ≡ D.earlier devices.old }
    {
        let (reader, _is_there) = self.open_file(devices, teller)?;
        let mut file = Counted::new(Told::new(reader, teller));
        let mended = self.mend_from(lists, &mut file, devices, writer);
        devices.count(&file);
        mended
    }

    /// Whether the guard mends the file. Nothing is written.
    pub fn can_mend<D: Devices<'w>, T: Teller>(
        &self,
        lists: &[DigestList],
        devices: &mut D,
        teller: &mut T,
    ) -> Result<bool, Stop>
        requires { All (λ l. IsList (listed_of l)) lists.now }
        ensures repairs { IfOk result (RepairsFile self.now.by.table.now self.now.by.key.now lists.now (in_file self.now (D.stands devices.old))
            (in_guard self.now (D.stands devices.old)) None None) }
        ensures stops { IfErr result StopsReading }
        ensures counts { Fails (D.failed devices.old) (D.failed devices.new) (failed_calls result) }
        ensures stays { D.stands devices.new ≡ D.stands devices.old }
        ensures kept { D.placed devices.new ≡ D.placed devices.old }
        ensures filed { D.filed devices.new ≡ D.filed devices.old }
        ensures earlier { D.earlier devices.new ≡ D.earlier devices.old }
    {
        let mut nowhere = Counted::new(sink());
        let mended = self.mend(lists, devices, teller, &mut nowhere);
        devices.count(&nowhere);
        mended
    }

    /// Writes the file as it was beside a place, and puts it there if all of it is mended. Answers whether it is.
    pub fn put_mended<D: Devices<'w>, T: Teller>(
        &self,
        lists: &[DigestList],
        place: &'w str,
        devices: &mut D,
        teller: &mut T,
    ) -> Result<bool, Stop>
        requires { All (λ l. IsList (listed_of l)) lists.now }
        ensures replaces { IfOk result (Replaces self.now.by.table.now self.now.by.key.now lists.now (in_file self.now) (in_guard self.now) place.entry.now
            (D.stands devices.old) D.blank (D.placed devices.old) (D.placed devices.new)) }
        ensures kept { IfErr result (λ _. D.placed devices.new ≡ D.placed devices.old) }
        ensures filed { D.filed devices.new ≡ D.filed devices.old }
        ensures earlier { D.earlier devices.new ≡ D.earlier devices.old }
        ensures stops { IfErr result StopsReading }
        ensures failures { (n : ℕ) × Fails (D.failed devices.old) (D.failed devices.new) n × FailsMending result n }
    {
        let there = Place::File(place);
        let mut writer = Counted::new(devices.create(there)?);
        let mended = self.mend(lists, devices, teller, &mut writer);
        devices.count(&writer);
        let is_whole = is_mended(&mended);
        put(devices, there, writer.into_inner(), mended, is_whole)
    }
}
