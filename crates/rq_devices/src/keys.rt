//! What is read whole: files, and keys in them.
ghost use Rattle.std.specs.Prelude.{◌≡◌, option_map, IfOk, IfErr, IfSome};
ghost use Rattle.rq_streams.specs.Ends.{failed_calls};
ghost use Rattle.rq_devices.specs.Failed.{Fails, StopsReading};
ghost use Rattle.rq_devices.specs.Keyed.{key_file, IsKeyRead};

use crate::devices::Devices;
use rq_cells::Key;
use rq_streams::{Counted, Stop, read_all};
use std::alloc::Global;
use std::io::Read;

/// All bytes of a reader, whose failed calls are counted.
pub fn read_whole<'w, D: Devices<'w>, R: Read + Drop>(
    alloc: Global,
    devices: &mut D,
    reader: R,
) -> Result<Vec<u8>, Stop>
    ensures bytes { IfOk result (λ v. IfSome (R.remaining reader) (λ input. v.items ≡ input)) }
    ensures stops { IfErr result StopsReading }
    ensures counts { Fails (D.failed devices.old) (D.failed devices.new) (failed_calls result) }
    ensures stays { D.stands devices.new ≡ D.stands devices.old }
    ensures kept { D.placed devices.new ≡ D.placed devices.old }
    ensures filed { D.filed devices.new ≡ D.filed devices.old }
    ensures earlier { D.earlier devices.new ≡ D.earlier devices.old }
{
    let mut input = Counted::new(reader);
    let read = read_all(alloc, &mut input);
    devices.count(&input);
    read
}

/// The key that a file has, all of whose bytes it is; none where there are none. Without a file it is that of
/// cells by no key.
pub fn key_of<'w, D: Devices<'w>>(
    alloc: Global,
    file: Option<&'w str>,
    devices: &mut D,
) -> Result<Option<Key>, Stop>
    ensures key { IfOk result (IsKeyRead (key_file (D.stands devices.old) (option_map (λ s. s.now) file.entry))) }
    ensures stops { IfErr result StopsReading }
    ensures counts { Fails (D.failed devices.old) (D.failed devices.new) (failed_calls result) }
    ensures stays { D.stands devices.new ≡ D.stands devices.old }
    ensures kept { D.placed devices.new ≡ D.placed devices.old }
    ensures filed { D.filed devices.new ≡ D.filed devices.old }
    ensures earlier { D.earlier devices.new ≡ D.earlier devices.old }
{
    let Some(file) = file else {
        return Ok(Some(Key::none()));
    };
    let reader = devices.open(Vec::from_slice(alloc, &[file])?)?;
    let bytes = read_whole(alloc, devices, reader)?;
    if bytes.is_empty() {
        return Ok(None);
    }
    Ok(Some(Key::new(bytes)))
}
