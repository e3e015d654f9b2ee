//! What the program's words ask for.
ghost use Rattle.std.specs.Prelude.{◌≡◌, ◌↔◌, Some, map, string_bytes};
ghost use Rattle.rq_streams.specs.declared.jobs.Job.{Job};
ghost use Rattle.rq_streams.specs.Asked.{AsksFor};

use crate::jobs::Job;

/// The job that the words after the program's name ask for: `send SIZE REPAIR`, of a u16 and a u32,
/// or `receive`.
pub fn job(words: &[String]) -> Option<Job>
    ensures { (wanted : Job) → (result ≡ Some wanted) ↔ AsksFor wanted (map string_bytes words.now) }
{
    match words {
        [word] if word.as_str() == "receive" => Some(Job::Receive),
        [word, size, repair] if word.as_str() == "send" => {
            let size = size.as_str().parse::<u16>().ok()?;
            let repair = repair.as_str().parse::<u32>().ok()?;
            Some(Job::Send { size, repair })
        }
        _ => None,
    }
}
