use tx_nested::Timeline;
use tx_types::Ts;

// A timeline in which each of these timestamps holds its number, put in one after the other.
fn timeline(rt: &HostRuntime, times: &[u64]) -> Option<Timeline<u64>> {
    let mut timeline = Timeline::new(rt.alloc());
    for time in times {
        timeline.insert(Ts::new(*time), *time).ok()?;
    }
    Some(timeline)
}

// The number that the last entry holds; 0 for none, and 99 for the number of another timestamp.
fn last_number(timeline: &Timeline<u64>) -> u64 {
    match timeline.last() {
        Some((at, number)) => number_at(at, number),
        None => 0,
    }
}

fn number_upto(timeline: &Timeline<u64>, bound: u64) -> u64 {
    match timeline.upto(Ts::new(bound)) {
        Some((at, number)) => number_at(at, number),
        None => 0,
    }
}

fn number_at(at: Ts, number: &u64) -> u64 {
    if at.get() == *number { *number } else { 99 }
}

fn value(timeline: &Timeline<u64>, at: u64) -> u64 {
    match timeline.get(Ts::new(at)) {
        Some(value) => *value,
        None => 0,
    }
}

fn time_below(timeline: &Timeline<u64>, bound: u64) -> u64 {
    match timeline.below(Ts::new(bound)) {
        Some(at) => at.get(),
        None => 0,
    }
}

#[test]
fn entries_are_found_in_whatever_order_they_came(rt: HostRuntime) {
    for times in [[3, 5, 9], [9, 5, 3], [5, 9, 3], [3, 9, 5]] {
        let Some(timeline) = timeline(&rt, times.as_slice()) else {
            assert!(rt; false, "memory");
            return;
        };
        assert_eq!(rt; last_number(&timeline), 9);
        for (at, get, upto, below) in [
            (2, 0, 0, 0),
            (3, 3, 3, 0),
            (4, 0, 3, 3),
            (5, 5, 5, 3),
            (8, 0, 5, 5),
            (9, 9, 9, 5),
            (10, 0, 9, 9),
            (u64::MAX, 0, 9, 9),
        ] {
            assert_eq!(rt; value(&timeline, at), get, "get at {at}");
            assert_eq!(rt; number_upto(&timeline, at), upto, "up to {at}");
            assert_eq!(rt; time_below(&timeline, at), below, "below {at}");
        }
    }
}

#[test]
fn an_empty_timeline_holds_nothing(rt: HostRuntime) {
    let timeline: Timeline<u64> = Timeline::new(rt.alloc());
    assert!(rt; timeline.is_empty());
    assert_eq!(rt; last_number(&timeline), 0);
    assert_eq!(rt; value(&timeline, 0), 0);
    assert_eq!(rt; number_upto(&timeline, 7), 0);
    assert_eq!(rt; time_below(&timeline, 7), 0);
}

#[test]
fn a_value_takes_the_place_of_another(rt: HostRuntime) {
    let Some(mut timeline) = timeline(&rt, &[3, 5, 9]) else {
        assert!(rt; false, "memory");
        return;
    };
    for (at, new) in [(5, 50), (9, 90)] {
        assert!(rt; timeline.insert(Ts::new(at), new).is_ok());
        assert_eq!(rt; value(&timeline, at), new);
    }
    assert_eq!(rt; value(&timeline, 3), 3);
    assert_eq!(rt; time_below(&timeline, 9), 5);
}

#[test]
fn entries_below_go_but_the_one_that_stays(rt: HostRuntime) {
    for (safe, stay, wanted) in [
        (0, None, [3, 5, 9]),
        (5, None, [0, 5, 9]),
        (9, Some(3), [3, 0, 9]),
        (10, Some(9), [0, 0, 9]),
        (10, Some(4), [0, 0, 0]),
    ] {
        let Some(mut timeline) = timeline(&rt, &[3, 5, 9]) else {
            assert!(rt; false, "memory");
            return;
        };
        timeline.keep_above(Ts::new(safe), stay.map(Ts::new));
        let found = [
            value(&timeline, 3),
            value(&timeline, 5),
            value(&timeline, 9),
        ];
        assert_eq!(rt; found, wanted, "{safe}");
        assert_eq!(rt; timeline.is_empty(), wanted == [0, 0, 0], "{safe}");
    }
}
