// Each function of `Counted` and of `Filled` is called, with items whose type has no filler and with some whose type has one.
use super::*;

#[test]
fn any_items(rt: HostRuntime) {
    let mut counted: Counted<u8, 3> = Counted::new(0xFF);
    assert_eq!(rt; counted.len(), 0);
    assert!(rt; !counted.is_full());
    assert!(rt; !counted.contains(&0xFF));
    for item in [7, 5, 6] {
        assert!(rt; counted.len() < 3);
        counted.push(item);
    }
    assert!(rt; counted.is_full());
    assert!(rt; counted.contains(&5));
    assert_eq!(rt; counted.as_slice(), [7, 5, 6].as_slice());
    counted.sort();
    assert_eq!(rt; counted.as_slice(), [5, 6, 7].as_slice());
}

#[test]
fn items_with_a_filler(rt: HostRuntime) {
    let mut counted: Counted<u32, 2> = Counted::new(9);
    counted.push(7);
    let mut filled: Filled<u32, 2> = Filled::from(counted);
    assert_eq!(rt; filled.as_slice(), [7].as_slice());
    assert_eq!(rt; filled.len(), 1);
    assert!(rt; !filled.is_full());
    filled.push(5);
    assert!(rt; filled.is_full());
    assert!(rt; filled.contains(&5));
    assert!(rt; !filled.contains(&9));
    let copy = filled;
    filled.sort();
    assert_eq!(rt; filled.as_slice(), [5, 7].as_slice());
    assert_eq!(rt; copy.as_slice(), [7, 5].as_slice());
    assert!(rt; copy.clone().is_ok());
}
