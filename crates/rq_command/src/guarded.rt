//! A file beside its guard: looked through, and mended.
ghost use Rattle.std.specs.Prelude.{◌≡◌};
ghost use Rattle.rq_command.specs.Program.{EndsChecking, EndsRepairing, end_of, Failures};

use crate::ending::End;
use rq_devices::{Devices, Teller, key_of};
use rq_guard::Decoding;
use rq_guard_runs::Pair;
use rq_rows::full_table;
use rq_streams::Stop;
use rq_words::{CheckJob, RepairJob};
use std::alloc::Global;

/// Says whether a file is as its guard says, and if it isn't, whether the guard mends it.
pub(crate) fn check<'w, D: Devices<'w>, T: Teller>(
    alloc: Global,
    job: &CheckJob<'w>,
    devices: &mut D,
    teller: &mut T,
) -> Result<End, Stop>
    ensures does { EndsChecking job.entry.now (D.stands devices.old) (end_of result) (D.placed devices.old) (D.placed devices.new) }
    ensures stays { D.stands devices.new ≡ D.stands devices.old }
    ensures filed { D.filed devices.new ≡ D.filed devices.old }
    ensures earlier { D.earlier devices.new ≡ D.earlier devices.old }
    ensures failures { Failures (end_of result) (D.failed devices.old) (D.failed devices.new) }
{
    let Some(key) = key_of(alloc, job.key, devices)? else {
        return Ok(End::EmptyKey);
    };
    let table = full_table(alloc)?;
    let pair = Pair {
        alloc,
        by: Decoding {
            key: &key,
            table: &table,
        },
        file: job.file,
        said: job.guard,
        telling: job.telling,
    };
    Ok(End::Checked(pair.check(devices, teller)?))
}

/// Mends a file by its guard, and puts it in its place, or where it is to be. One that is whole stays as it is, and so
/// does one of which at most a hundredth is: it may be another file.
pub(crate) fn repair<'w, D: Devices<'w>, T: Teller>(
    alloc: Global,
    job: &RepairJob<'w>,
    devices: &mut D,
    teller: &mut T,
) -> Result<End, Stop>
    ensures does { EndsRepairing job.entry.now (D.stands devices.old) D.blank (end_of result) (D.placed devices.old) (D.placed devices.new) }
    ensures filed { D.filed devices.new ≡ D.filed devices.old }
    ensures earlier { D.earlier devices.new ≡ D.earlier devices.old }
    ensures failures { Failures (end_of result) (D.failed devices.old) (D.failed devices.new) }
{
    let Some(key) = key_of(alloc, job.key, devices)? else {
        return Ok(End::EmptyKey);
    };
    let table = full_table(alloc)?;
    let pair = Pair {
        alloc,
        by: Decoding {
            key: &key,
            table: &table,
        },
        file: job.file,
        said: job.guard,
        telling: job.telling,
    };
    Ok(End::Repaired(pair.repair(job.output, devices, teller)?))
}
