use crate::full_table;

#[test]
fn all_rows_are_checked(rt: HostRuntime) {
    let table = full_table(rt.alloc()).expect(&rt, "a table");
    assert_eq!(rt; table.greatest(), 56403);
}
