//! Maps of names over interners of a caller's own: two maps of one interner, what is lent, and
//! clones; and how versions of names are ordered.

use std::alloc::Global;
use std::cmp::Ordering;
use std::process::Abort;
use std::test::Fail;
use wac_types::{Countdown, NameError, NameMap, NameMapIntern, Numbers, version_cmp};

type Map = NameMap<usize, u32>;

// The value under a name.
fn value<I: NameMapIntern<Key = usize>>(
    map: &Map,
    cx: &I,
    name: &str,
) -> Result<Option<u32>, NameError> {
    Ok(map.get(name, cx)?.copied())
}

// The key under which a name is put.
fn put(map: &mut Map, cx: &mut Countdown, name: &str, value: u32) -> Result<usize, NameError> {
    map.insert(name, cx, false, value)
}

// Whether in a new map a name that is on the track of another, and has the other's track key
// as its own name, stands alone.
fn stands_alone(alloc: Global, cx: &mut Countdown) -> Result<bool, NameError> {
    let mut map: Map = NameMap::new(alloc);
    let before = value(&map, cx, "a:b/c@1.0.0")?;
    let alone = put(&mut map, cx, "a:b/c@1", 5)?;
    let between = value(&map, cx, "a:b/c@1.0.0")?;
    let tracked = put(&mut map, cx, "a:b/c@1.2.0", 6)?;
    let after = value(&map, cx, "a:b/c@1.0.0")?;
    let itself = value(&map, cx, "a:b/c@1")?;
    Ok(
        (alone, tracked) == (1000, 999)
            && [before, between, after, itself] == [None, None, Some(6), Some(5)],
    )
}

#[test]
fn two_maps_of_one_interner_know_nothing_of_each_other(rt: HostRuntime) -> Result<(), Fail> {
    let mut cx = Countdown::new(rt.alloc());
    assert_eq!(&rt; cx.intern(rt.alloc(), "a:b/c@1")?, 1000);
    assert!(&rt; stands_alone(rt.alloc(), &mut cx)?);
    assert!(&rt; stands_alone(rt.alloc(), &mut cx)?);
    Ok(())
}

// Puts two names, refuses one of them again, and puts two versions on a track.
fn fill_versions(map: &mut Map, cx: &mut Countdown) -> Result<bool, NameError> {
    put(map, cx, "a", 0)?;
    put(map, cx, "b", 1)?;
    let is_refused = match put(map, cx, "a", 7) {
        Ok(_key) => false,
        Err(NameError::Twice { name: _ }) => true,
        Err(NameError::Memory) => return Err(NameError::Memory),
    };
    put(map, cx, "a:b/c@1.0.0", 2)?;
    put(map, cx, "a:b/c@1.0.1", 3)?;
    Ok(is_refused)
}

// Whether a map that was filled so keeps the first value, and finds the greatest version.
fn finds_versions(map: &Map, cx: &Countdown) -> Result<bool, NameError> {
    let kept = value(map, cx, "a")?;
    let same = value(map, cx, "a:b/c@1.0.0")?;
    let greatest = value(map, cx, "a:b/c@1.1.0")?;
    let other = value(map, cx, "c")?;
    Ok([kept, same, greatest, other] == [Some(0), Some(2), Some(3), None])
}

// Puts two names whose versions differ in build metadata alone.
fn fill_builds(map: &mut Map, cx: &mut Countdown) -> Result<(), NameError> {
    put(map, cx, "a:b/c@1.0.0+a", 1)?;
    put(map, cx, "a:b/c@1.0.0+b", 2)?;
    Ok(())
}

// Both maps are filled before either is asked.
#[test]
fn two_maps_of_one_interner_find_their_own_versions(rt: HostRuntime) -> Result<(), Fail> {
    let mut cx = Countdown::new(rt.alloc());
    assert_eq!(&rt; cx.intern(rt.alloc(), "a:b/c@1")?, 1000);
    let mut versions: Map = NameMap::new(rt.alloc());
    let mut builds: Map = NameMap::new(rt.alloc());
    assert!(&rt; fill_versions(&mut versions, &mut cx)?);
    fill_builds(&mut builds, &mut cx)?;
    assert!(&rt; finds_versions(&versions, &cx)?);
    assert_eq!(&rt; value(&builds, &cx, "a:b/c@1.0.5")?, Some(2));
    Ok(())
}

// Puts two names, and one of them again.
fn fill(map: &mut Map, cx: &mut Numbers) -> Result<(), NameError> {
    map.insert("a", cx, false, 1)?;
    map.insert("b", cx, false, 2)?;
    map.insert("a", cx, true, 3)?;
    Ok(())
}

// Whether a map has these two entries, in this order.
fn lists(map: &Map, first: (usize, u32), second: (usize, u32)) -> bool {
    let mut entries = map.raw_iter();
    let (Some(a), Some(b), None) = (entries.next(), entries.next(), entries.next()) else {
        return false;
    };
    (*a.0, *a.1) == first && (*b.0, *b.1) == second
}

// Asserts that a clone keeps its values when those of the map are written.
fn check_clone<R: Abort>(rt: &R, map: &mut Map) -> Result<(), Fail> {
    let copy = map.clone()?;
    if let Some(value) = map.raw_get_mut(&1) {
        *value = 9;
    }
    assert!(rt; map.raw_get_mut(&7).is_none());
    assert!(rt; lists(map, (0, 3), (1, 9)));
    assert!(rt; lists(&copy, (0, 3), (1, 2)));
    Ok(())
}

#[test]
fn values_are_listed_in_order_written_in_place_and_cloned(rt: HostRuntime) -> Result<(), Fail> {
    let mut map = NameMap::new(rt.alloc());
    fill(&mut map, &mut Numbers::new(rt.alloc()))?;
    check_clone(&rt, &mut map)
}

// Two names, and how their versions are ordered, where they are on one track.
static ORDERS: [(&str, &str, Option<Ordering>); 15] = [
    ("a:b/c@1.2.3", "a:b/c@1.2.3", Some(Ordering::Equal)),
    ("a:b/c@1.9.0", "a:b/c@1.10.0", Some(Ordering::Less)),
    ("a:b/c@0.2.1", "a:b/c@0.2.0", Some(Ordering::Greater)),
    // build metadata come last
    ("a:b/c@1.2.3", "a:b/c@1.2.3+a", Some(Ordering::Less)),
    ("a:b/c@1.2.3+b", "a:b/c@1.2.3+a", Some(Ordering::Greater)),
    ("a:b/c@1.2.3+b", "a:b/c@1.2.4+a", Some(Ordering::Less)),
    // a pre-release has no track
    ("a:b/c@1.2.3-rc.1", "a:b/c@1.2.3", None),
    ("a:b/c@1.2.3-rc.1", "a:b/c@1.2.3-rc.1", None),
    // two tracks
    ("a:b/c@1.2.3", "a:b/c@2.2.3", None),
    ("a:b/c@0.1.0", "a:b/c@0.2.0", None),
    ("a:b/c@1.2.3", "a:b/d@1.2.3", None),
    // no version, or none that has a track
    ("a:b/c", "a:b/c", None),
    ("a:b/c", "a:b/c@1.2.3", None),
    ("a", "a", None),
    ("a:b/c@0.0.1", "a:b/c@0.0.1", None),
];

#[test]
fn versions_on_one_track_are_ordered(rt: HostRuntime) -> Result<(), Fail> {
    for (a, b, wanted) in &ORDERS {
        assert_eq!(&rt; version_cmp(rt.alloc(), a, b)?, *wanted, "{a} {b}");
    }
    Ok(())
}
