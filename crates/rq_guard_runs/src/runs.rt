//! A file beside its guard: looked through, and mended.
ghost use Rattle.std.specs.Prelude.{◌≡◌, ℕ, option_map, IfOk, IfErr};
ghost use Rattle.rq_streams.specs.Ends.{failed_calls};
ghost use Rattle.rq_devices.specs.Failed.{Fails, StopsReading};
ghost use Rattle.rq_guard_runs.specs.Guards.{stays, Checks, Repairs, FailsRepairing};
ghost use Rattle.rq_guard_runs.specs.Pairs.{in_file, in_guard};

use crate::findings::Findings;
use crate::pair::Pair;
use rq_devices::{Devices, Teller};
use rq_streams::Stop;

// A file stays as it is that is whole, or may be another one, unless a place is named.
fn stays(output: Option<&str>, found: &Findings) -> bool
    ensures { result ≡ stays (option_map (λ s. s.now) output.entry) found.now }
{
    output.is_none() && (found.is_whole() || found.is_strange())
}

impl<'w> Pair<'_, 'w> {
    /// What is found of the file, and whether the guard mends it.
    pub fn check<D: Devices<'w>, T: Teller>(
        &self,
        devices: &mut D,
        teller: &mut T,
    ) -> Result<Option<Findings>, Stop>
        ensures found { IfOk result (Checks self.now.by.table.now self.now.by.key.now (in_file self.now (D.stands devices.old))
            (in_guard self.now (D.stands devices.old))) }
        ensures stops { IfErr result StopsReading }
        ensures counts { Fails (D.failed devices.old) (D.failed devices.new) (failed_calls result) }
        ensures stays { D.stands devices.new ≡ D.stands devices.old }
        ensures kept { D.placed devices.new ≡ D.placed devices.old }
        ensures filed { D.filed devices.new ≡ D.filed devices.old }
        ensures earlier { D.earlier devices.new ≡ D.earlier devices.old }
    {
        let Some(found) = self.find(devices, teller)? else {
            return Ok(None);
        };
        if found.is_whole() {
            return Ok(Some(found));
        }
        let is_mended = self.can_mend(found.lists.as_slice(), devices, teller)?;
        Ok(Some(found.with(is_mended)))
    }

    /// What is found of the file, which is mended in its place, or in another one, where that is named. One that is whole
    /// stays as it is, and so does one of each of whose parts at most a hundredth is: it may be another file.
    pub fn repair<D: Devices<'w>, T: Teller>(
        &self,
        output: Option<&'w str>,
        devices: &mut D,
        teller: &mut T,
    ) -> Result<Option<Findings>, Stop>
        ensures found { IfOk result (λ o. Repairs self.now.by.table.now self.now.by.key.now (in_file self.now) (in_guard self.now) self.now.file.now
            (option_map (λ s. s.now) output.entry) (D.stands devices.old) D.blank o (D.placed devices.old) (D.placed devices.new)) }
        ensures kept { IfErr result (λ _. D.placed devices.new ≡ D.placed devices.old) }
        ensures filed { D.filed devices.new ≡ D.filed devices.old }
        ensures earlier { D.earlier devices.new ≡ D.earlier devices.old }
        ensures stops { IfErr result StopsReading }
        ensures failures { (n : ℕ) × Fails (D.failed devices.old) (D.failed devices.new) n × FailsRepairing result n }
    {
        let Some(found) = self.find(devices, teller)? else {
            return Ok(None);
        };
        if stays(output, &found) {
            return Ok(Some(found));
        }
        let place = output.unwrap_or(self.file);
        let is_mended = self.put_mended(found.lists.as_slice(), place, devices, teller)?;
        Ok(Some(found.with(is_mended)))
    }
}
