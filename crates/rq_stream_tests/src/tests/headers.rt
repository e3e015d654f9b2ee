//! Streams whose configuration is refused, and what is said of them.
use super::streams::run;
use crate::compare::{holds, same};
use rq_streams::{Stop, report};
use std::test::Fail;

// Each with the number of its refusal.
#[test]
fn refused_configurations(rt: HostRuntime) -> Result<(), Fail> {
    let cases: [([u8; 12], u8, &str); 6] = [
        ([0; 12], 5, "refused 5\n"),
        ([0, 0, 0, 0, 3, 0, 0, 2, 1, 0, 1, 0], 2, "refused 2\n"),
        ([0, 0, 0, 0, 3, 0, 0, 3, 1, 0, 1, 2], 3, "refused 3\n"),
        ([0, 0, 0, 0, 3, 0, 0, 2, 0, 0, 1, 1], 6, "refused 6\n"),
        ([0, 0, 0, 1, 242, 0, 0, 1, 1, 0, 1, 1], 7, "refused 7\n"),
        (
            [255, 255, 255, 255, 255, 0, 255, 255, 255, 0, 1, 1],
            7,
            "refused 7\n",
        ),
    ];
    for (header, number, line) in cases {
        let mut out: Vec<u8> = Vec::new(rt.alloc());
        let (ended, failed) = run(rt.alloc(), "receive", header.as_slice(), &mut out)?;
        let refused = match ended {
            Some(Err(Stop::Refused(refusal))) => refusal.code(),
            _ => 0,
        };
        same!(rt; refused, number, header);
        holds!(rt; out.is_empty(), header);
        holds!(rt; failed == 0, header);
        same!(rt; report(ended.as_ref(), &mut out), 3);
        same!(rt; out.as_slice(), line.as_bytes(), header);
    }
    Ok(())
}
