//! The repair packets that losses ask for.
use rq_cast::Loss;

#[test]
fn losses_ask_for_repair(rt: HostRuntime) {
    // Below 100 by the table of docs/SEND.md, from there on by the formula in Python's fractions.
    let rows: [(u16, u32, u64); 16] = [
        (0, 0, 5),
        (1, 5_000, 7),
        (2, 5_000, 10),
        (10, 10_000, 13),
        (11, 10_001, 60),
        (99, 50_000, 183),
        (100, 0, 5),
        (100, 1_000, 12),
        (100, 5_000, 23),
        (100, 50_000, 181),
        (497, 500, 16),
        (497, 5_000, 58),
        (497, 20_000, 193),
        (5_000, 5_000, 352),
        (56_403, 500, 373),
        (56_403, 50_000, 58_093),
    ];
    for (symbols, parts, packets) in rows {
        assert_eq!(rt;
            Loss { parts }.repair(u64::from(symbols)),
            packets,
            "{symbols} at {parts}"
        );
    }
}
