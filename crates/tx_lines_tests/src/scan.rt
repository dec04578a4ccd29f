use tx_text::{Parts, Scanned, scanned_with_rows};

// How many plain members were scanned, and how many rows of a list after them.
fn counts(rt: &HostRuntime, line: &str) -> Option<(usize, Option<usize>)> {
    let mut parts = Parts::new();
    match scanned_with_rows(rt.alloc(), line.as_bytes(), &mut parts)? {
        Scanned::Plain => Some((parts.len(), None)),
        Scanned::Listed(rows) => Some((parts.len(), Some(rows.len()))),
    }
}

fn is_plain(rt: &HostRuntime, line: &str, members: usize) -> bool {
    matches!(counts(rt, line), Some((found, None)) if found == members)
}

fn is_listed(rt: &HostRuntime, line: &str, members: usize, rows: usize) -> bool {
    matches!(counts(rt, line), Some((found, Some(listed))) if found == members && listed == rows)
}

#[test]
fn nulls_are_plain(rt: HostRuntime) {
    for (line, members) in [
        ("[null]", 1),
        ("[\"read\",3,\"k\",null]", 4),
        (" [ null , 1 , null ] ", 3),
    ] {
        assert!(rt; is_plain(&rt, line, members), "{line}");
    }
}

#[test]
fn rows_stand_last(rt: HostRuntime) {
    for (line, members, rows) in [
        ("[\"scan\",4,\"a\",\"m\",9,[]]", 5, 0),
        ("[\"declare\",1,[[\"a\",\"delete\"]]]", 2, 1),
        (
            "[\"declare\",1,[[\"a\",\"put\",\"x\"],[\"b\",\"lock\"]]]",
            2,
            2,
        ),
        (
            " [ 1 , [ [ \"a\" , \"put\" , \"x\" ] , [ \"b\" , \"lock\" ] , [ \"\" , \"é\" ] ] ] ",
            1,
            3,
        ),
    ] {
        assert!(rt; is_listed(&rt, line, members, rows), "{line}");
    }
}

#[test]
fn other_lines_are_left(rt: HostRuntime) {
    for line in [
        "[]",
        "[\"read\",3,\"k\",nul]",
        "[\"read\",3,\"k\",nullx]",
        "[\"read\",3,\"k\",null",
        "[\"declare\",1,[[\"a\",\"put\",\"\\n\"]]]",
        "[\"declare\",1,[[\"a\",\"delete\"]]]x",
        "[\"declare\",1,[[\"a\",\"delete\"]]",
        "[\"declare\",1,[[\"a\",\"delete\"]",
        "[\"declare\",1,[[\"a\",\"delete\"],]]",
        "[\"declare\",1,[[\"a\",\"delete\"][\"b\",\"delete\"]]]",
        "[\"declare\",1,[[\"a\",[\"b\"]]]]",
        "[\"declare\",1,[[\"a\",1]]]",
        "[\"declare\",1,[[\"a\"]]]",
        "[\"declare\",1,[\"a\"]]",
        "[\"declare\",[],1]",
    ] {
        assert!(rt; counts(&rt, line).is_none(), "{line}");
    }
}
