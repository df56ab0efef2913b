// A thousand places, of which every third leaves and comes back.
ghost use Rattle.std.specs.Prelude.{◌≡◌, ◌<◌, ◌↔◌, [], Contains, IsTrue};

use std::process::Abort;
use wait_list::*;

const PLACES: u32 = 1_000;

// Whether a place waits.
fn waits(list: &WaitList, place: u32) -> bool
    requires { place < list.now.capacity }
    ensures { IsTrue result ↔ Contains list.now.places place }
{
    let next = if place == 0 {
        list.first()
    } else {
        list.after(place - 1)
    };
    match next {
        Some(lowest) => lowest == place,
        None => false,
    }
}

// Lets each place wait.
fn fill(list: &mut WaitList)
    requires capacity { list.old.capacity ≡ 1000 }
    requires empty { list.old.places ≡ [] }
    ensures { list.new.capacity ≡ 1000 }
{
    for place in 0..PLACES {
        list.add(place);
    }
}

// Takes every third place out.
fn take_thirds(rt: &impl Abort, list: &mut WaitList)
    requires { list.old.capacity ≡ 1000 }
    ensures { list.new.capacity ≡ 1000 }
{
    for third in 0..334 {
        let place = 3 * third;
        assert!(rt; waits(list, place), "{place} waits");
        list.remove(place);
    }
}

// Puts every third place back, the last one first.
fn put_thirds_back(rt: &impl Abort, list: &mut WaitList)
    requires { list.old.capacity ≡ 1000 }
    ensures { list.new.capacity ≡ 1000 }
{
    for third in (0..334).rev() {
        let place = 3 * third;
        assert!(rt; !waits(list, place), "{place} left");
        list.put_back(place);
    }
}

// Whether the places that are left stand in order, from the first one on.
fn lacks_thirds(list: &WaitList) -> bool
    requires { list.now.capacity ≡ 1000 }
{
    list.first() == Some(1) && list.after(2) == Some(4) && list.after(5) == Some(7)
}

// Whether all places stand in order.
fn has_all(list: &WaitList) -> bool
    requires { list.now.capacity ≡ 1000 }
{
    for place in 1..PLACES {
        if list.after(place - 1) != Some(place) {
            return false;
        }
    }
    list.first() == Some(0) && list.after(PLACES - 1).is_none()
}

// Fills a list, takes every third place out, and puts it back.
fn take_and_put_back(rt: &impl Abort, list: &mut WaitList)
    requires capacity { list.old.capacity ≡ 1000 }
    requires empty { list.old.places ≡ [] }
{
    assert!(rt; list.first().is_none());
    fill(list);
    take_thirds(rt, list);
    assert!(rt; lacks_thirds(list));
    put_thirds_back(rt, list);
    assert!(rt; has_all(list));
}

#[test]
fn places_put_back_stand_in_the_same_order(rt: HostRuntime) {
    let mut list = WaitList::new(rt.alloc(), PLACES).expect(&rt, "there is memory");
    take_and_put_back(&rt, &mut list);
}
