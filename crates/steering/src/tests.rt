//! Orders over all that may be shown, and how far they are obeyed.

use crate::{Course, Showing, Stage, Steering};
use playing::Pace;
use std::test::Fail;
use web_target::{Beginning, Order, Playback};

fn pace_of(thousandths: u32) -> Result<Pace, Fail> {
    Ok(Pace::from_thousandths(thousandths).ok_or("pace")?)
}

// The recording from a time on.
fn played(time: u32, pace: Pace, longest_pause: Option<u32>) -> Showing {
    Showing::Played(Playback {
        time,
        pace,
        longest_pause,
    })
}

// What who is at the time 50, and is shown this, is shown after an order: at this pace, with this
// longest pause.
fn follows(
    showing: Showing,
    order: Order,
    after: Showing,
    pace: Pace,
    longest_pause: Option<u32>,
) -> Result<bool, Fail> {
    let mut steering = Steering {
        showing,
        pace: pace_of(1000)?,
        longest_pause: None,
    };
    steering.take(order, 50);
    let expected = Steering {
        showing: after,
        pace,
        longest_pause,
    };
    Ok(steering == expected)
}

#[test]
fn viewers_go_elsewhere(rt: HostRuntime) -> Result<(), Fail> {
    let normal = pace_of(1000)?;
    // To a time: who stands still stands still there, too.
    for (showing, after) in [
        (Showing::Live, played(3, normal, None)),
        (Showing::After(7), played(3, normal, None)),
        (played(5, normal, None), played(3, normal, None)),
        (Showing::Still(9), Showing::Still(3)),
    ] {
        assert!(rt; follows(showing, Order::At(3), after, normal, None)?);
    }
    // On: from the time at which it stands still.
    for (showing, after) in [
        (Showing::Live, Showing::Live),
        (Showing::After(7), Showing::After(7)),
        (played(5, normal, None), played(5, normal, None)),
        (Showing::Still(9), played(9, normal, None)),
    ] {
        assert!(rt; follows(showing, Order::Pause(false), after, normal, None)?);
    }
    Ok(())
}

#[test]
fn some_orders_are_followed_by_all(rt: HostRuntime) -> Result<(), Fail> {
    let normal = pace_of(1000)?;
    for showing in [
        Showing::Live,
        Showing::After(7),
        played(5, normal, None),
        Showing::Still(9),
    ] {
        assert!(rt;
            follows(
                showing,
                Order::Pause(true),
                Showing::Still(50),
                normal,
                None
            )?
        );
        assert!(rt; follows(showing, Order::Live, Showing::Live, normal, None)?);
        assert!(rt; follows(showing, Order::After(4), Showing::After(4), normal, None)?);
    }
    Ok(())
}

#[test]
fn what_is_played_goes_on_in_its_new_time(rt: HostRuntime) -> Result<(), Fail> {
    let (normal, fast) = (pace_of(1000)?, pace_of(2000)?);
    for (showing, after) in [
        (Showing::Live, Showing::Live),
        (Showing::After(7), Showing::After(7)),
        (played(5, normal, None), played(50, fast, None)),
        (Showing::Still(9), Showing::Still(9)),
    ] {
        assert!(rt; follows(showing, Order::Pace(fast), after, fast, None)?);
    }
    for (showing, after) in [
        (Showing::Live, Showing::Live),
        (Showing::After(7), Showing::After(7)),
        (played(5, normal, None), played(50, normal, Some(8))),
        (Showing::Still(9), Showing::Still(9)),
    ] {
        let order = Order::LongestPause(Some(8));
        assert!(rt; follows(showing, order, after, normal, Some(8))?);
    }
    Ok(())
}

#[test]
fn an_order_is_obeyed_by_its_own_screen(rt: HostRuntime) -> Result<(), Fail> {
    let normal = pace_of(1000)?;
    let mut course = Course::of(Steering::of(Beginning::Live, normal), 900);
    assert!(rt; course.time == 900 && course.orders == 0 && !course.is_obeyed());
    assert!(rt; course.begin().showing == Showing::Live);
    course.hand_message(910);
    // The newest screen is of the session's end.
    course.hand_screen(912);
    assert!(rt; course.is_obeyed() && course.time == 912);
    // It comes while what was asked for before is begun, of which a screen and a message come then.
    course.take(Order::At(3), 920);
    course.hand_screen(922);
    course.hand_message(915);
    assert!(rt; course.stage == Stage::Ordered && course.time == 3 && course.orders == 1);
    assert!(rt; course.begin().showing == played(3, normal, None));
    assert!(rt; !course.is_obeyed());
    course.hand_screen(925);
    course.hand_message(4);
    assert!(rt; course.is_obeyed() && course.time == 4);
    // It stands still at the time that it is at.
    course.take(Order::Pause(true), 930);
    assert!(rt; course.begin().showing == Showing::Still(4) && course.orders == 2);
    Ok(())
}

#[test]
fn who_falls_behind_is_at_the_end(rt: HostRuntime) -> Result<(), Fail> {
    let mut course = Course::of(Steering::of(Beginning::After(7), pace_of(1000)?), 900);
    course.begin();
    // The screen before its first message, and that message.
    course.hand_screen(910);
    assert!(rt; course.is_obeyed() && course.time == 0);
    course.hand_message(30);
    // The newest screen, in place of what it has missed.
    course.hand_screen(920);
    assert!(rt; course.time == 920);
    Ok(())
}

#[test]
fn viewers_begin_as_they_ask(rt: HostRuntime) -> Result<(), Fail> {
    let (normal, fast) = (pace_of(1000)?, pace_of(2000)?);
    let playback = Playback {
        time: 5,
        pace: fast,
        longest_pause: Some(8),
    };
    let begun = [
        (Beginning::After(7), normal, None, 0, Showing::After(7)),
        (Beginning::Still(9), normal, None, 9, Showing::Still(9)),
        (
            Beginning::Played(playback),
            fast,
            Some(8),
            5,
            Showing::Played(playback),
        ),
    ];
    for (beginning, pace, longest_pause, time, showing) in begun {
        let course = Course::of(Steering::of(beginning, normal), 900);
        let expected = Steering {
            showing,
            pace,
            longest_pause,
        };
        assert!(rt; course.steering == expected && course.time == time);
    }
    Ok(())
}
