// Closures over a tray, and a tray taken by value: a caller needs no proof of its own.
ghost use Rattle.std.specs.Prelude.{◌≡◌, not, filter, ◌==◌};
ghost use Rattle.tray.specs.Contents.{contents, place_from};

use super::Tray;

// Takes out all that are equal to x.
fn without(tray: &mut Tray<'_, u8>, x: u8)
    ensures { contents tray.new ≡ filter (λ y. not (y == x)) (contents tray.old) }
{
    tray.retain(|y| *y != x);
}

// The position of the first that is equal to x.
fn position_of(tray: &Tray<'_, u8>, x: u8) -> Option<usize>
    ensures { result ≡ place_from (λ y. y == x) 0 (contents tray.now) }
{
    tray.find(|y| *y == x)
}

// A tray that is taken by value can be changed.
fn taken_with(mut tray: Tray<'_, u8>, x: u8) -> usize {
    let _ = tray.add(x);
    tray.len()
}

#[test]
fn closures_test_the_elements(rt: HostRuntime) {
    let mut memory = [0; 4];
    let mut tray = Tray::new(&mut memory);
    for x in [7, 5, 7] {
        assert!(rt; tray.add(x).is_ok());
    }
    assert_eq!(rt; position_of(&tray, 5), Some(1));
    without(&mut tray, 7);
    assert!(rt; tray.as_slice() == [5].as_slice());
    assert_eq!(rt; position_of(&tray, 7), None);
    assert_eq!(rt; taken_with(tray, 3), 2);
}
