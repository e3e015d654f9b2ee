//! The guard of a file, made.
ghost use Rattle.std.specs.Prelude.{◌≡◌, ◌<◌, option_map, IfOk, IfErr};
ghost use Rattle.rq_streams.specs.Ends.{failed_calls};
ghost use Rattle.rq_devices.specs.Failed.{Fails, StopsReading};
ghost use Rattle.rq_devices.specs.Placed.{guard_name};
ghost use Rattle.rq_command.specs.Guarding.{EndsProtecting};
ghost use Rattle.rq_command.specs.Program.{end_of, Failures};

use crate::ending::End;
use crate::rounds::open_files;
use rq_cast::{Output, Pace, Sender};
use rq_devices::{Devices, Place, Teller, Told, key_of, put};
use rq_guard::{GuardOrder, protect};
use rq_streams::{Counted, Stop};
use rq_words::ProtectJob;
use std::alloc::Global;

// A guard is written as fast as can be, and what is told of it is how far its file is read.
#[derive(Drop)]
struct AtOnce;

impl Pace for AtOnce {
    fn begin_part(&mut self, _sender: &Sender<'_>) {}

    fn wait(&mut self, _bytes: usize) {}

    fn tell_call(&mut self, _cell: &[u8], _is_lost: bool) {}
}

// In which file's place the guard is put.
fn place_of<'w, D: Devices<'w>>(job: &ProtectJob<'w>, devices: &mut D) -> Result<&'w str, Stop>
    ensures place { IfOk result (λ s. s.now ≡ guard_name job.entry.now.file.now (option_map (λ s. s.now) job.entry.now.output)) }
    ensures stops { IfErr result StopsReading }
    ensures counts { Fails (D.failed devices.old) (D.failed devices.new) (failed_calls result) }
    ensures stays { D.stands devices.new ≡ D.stands devices.old }
    ensures kept { D.placed devices.new ≡ D.placed devices.old }
    ensures filed { D.filed devices.new ≡ D.filed devices.old }
    ensures earlier { D.earlier devices.new ≡ D.earlier devices.old }
{
    match job.output {
        Some(guard) => Ok(guard),
        None => devices.guard_of(job.file),
    }
}

/// Makes the guard of a file, beside the place that it has then.
pub(crate) fn protect_file<'w, D: Devices<'w>, T: Teller>(
    alloc: Global,
    job: &ProtectJob<'w>,
    devices: &mut D,
    teller: &mut T,
) -> Result<End, Stop>
    requires part { 0 < job.now.part }
    ensures does { EndsProtecting job.entry.now (D.stands devices.old) D.blank (end_of result) (D.placed devices.old) (D.placed devices.new) }
    ensures filed { D.filed devices.new ≡ D.filed devices.old }
    ensures earlier { D.earlier devices.new ≡ D.earlier devices.old }
    ensures failures { Failures (end_of result) (D.failed devices.old) (D.failed devices.new) }
{
    let Some(key) = key_of(alloc, job.key, devices)? else {
        return Ok(End::EmptyKey);
    };
    let guard = place_of(job, devices)?;
    let place = Place::File(guard);
    let reader = open_files(alloc, &[job.file], devices)?;
    teller.begin(job.telling, None, devices.length(&reader));
    let mut output = Output::new(Counted::new(devices.create(place)?));
    let mut input = Counted::new(Told::new(reader, teller));
    let order = GuardOrder {
        part: job.part,
        repair: job.repair,
    };
    let made = protect(alloc, &order, &key, &mut input, &mut output, &mut AtOnce);
    devices.count(&input);
    let counted = output.into_counted();
    devices.count(&counted);
    let is_whole = made.is_ok();
    let made = put(devices, place, counted.into_inner(), made, is_whole)?;
    Ok(End::Protected(made))
}
