//! Where a run puts what it writes.
ghost use Rattle.std.specs.Prelude.{◌≡◌, ◌⊎◌, ℕ, true, Err, IsOk};
ghost use Rattle.rq_devices.specs.Failed.{Fails, FailsPutting};
ghost use Rattle.rq_devices.specs.Spots.{IsFinished, spot_of};

use crate::devices::Devices;
use rq_streams::Stop;

/// Where a run puts what it writes.
#[derive(Clone, Copy, Debug)]
pub enum Place<'w> {
    /// On standard output.
    Output,
    /// In a file's place.
    File(&'w str),
    /// In a folder's place, as shards of a file.
    Shards {
        /// The folder.
        folder: &'w str,
        /// The file that is split.
        file: &'w str,
        /// How many there are.
        count: u8,
    },
}

impl<'w> Place<'w> {
    ghost use Rattle.std.specs.Prelude.{◌≡◌, option_map};
    ghost use Rattle.rq_devices.specs.Spots.{output_spot, spot_of};

    /// A file's, or standard output, where there is none.
    pub fn of(file: Option<&'w str>) -> Place<'w>
        ensures { spot_of result ≡ output_spot (option_map (λ s. s.now) file.entry) }
    {
        match file {
            Some(file) => Place::File(file),
            None => Place::Output,
        }
    }
}

/// Puts what a run wrote in its place where it is whole, and else takes it away, at which a failed call is no fault of
/// the run.
pub fn put<'w, D: Devices<'w>, X: Copy>(
    devices: &mut D,
    place: Place<'w>,
    writer: D::Writer,
    ended: Result<X, Stop>,
    is_whole: bool,
) -> Result<X, Stop>
    requires { is_whole ≡ true → IsOk ended }
    ensures same { (ended ≡ result) ⊎ ((is_whole ≡ true) × (result ≡ Err Stop.Fault)) }
    ensures placed { IsFinished (spot_of place.entry) is_whole result (D.Writer.contents writer) (D.placed devices.old) (D.placed devices.new) }
    ensures filed { D.filed devices.new ≡ D.filed devices.old }
    ensures earlier { D.earlier devices.new ≡ D.earlier devices.old }
    ensures failures { (n : ℕ) × Fails (D.failed devices.old) (D.failed devices.new) n × FailsPutting is_whole result n }
{
    if !is_whole {
        let _ = devices.finish(place, writer, false);
        return ended;
    }
    devices.finish(place, writer, true)?;
    ended
}
