//! Blocks that are told of, worked by hand.

use crate::{Block, Facts, Stretch, Timeline, write_timeline};
use std::alloc::Global;
use std::test::Fail;
use terms::ScreenSize;

// That of blocks of these times, of which the first has the number 7, and each two messages.
fn timeline_of(alloc: Global, every: Option<u32>, times: &[u32]) -> Result<Timeline, Fail> {
    let mut timeline = Timeline::new(alloc, 7, every);
    let mut message = 10u64;
    for time in times {
        let block = Block {
            time: *time,
            message,
            updates: 2,
        };
        if !timeline.add(block)? {
            return Err("full")?;
        }
        message = message.saturating_add(2);
    }
    Ok(timeline)
}

fn stretch(time: u32, message: u64, block: u64, updates: u64) -> Stretch {
    Stretch {
        time,
        message,
        block,
        updates,
    }
}

#[test]
fn blocks_of_a_window_are_told_together(rt: HostRuntime) -> Result<(), Fail> {
    // A window begins with each whole second; none is told of in which there is no block.
    let times = [5, 5, 999, 1000, 4000, 4999];
    let timeline = timeline_of(rt.alloc(), Some(1000), &times)?;
    let expected = [
        stretch(5, 10, 7, 6),
        stretch(1000, 16, 10, 2),
        stretch(4000, 18, 11, 4),
    ];
    assert!(rt; timeline.stretches() == expected.as_slice());
    assert!(rt; timeline.next() == 13);
    Ok(())
}

#[test]
fn without_windows_each_block_is_told_by_itself(rt: HostRuntime) -> Result<(), Fail> {
    for every in [None, Some(0)] {
        let timeline = timeline_of(rt.alloc(), every, &[5, 5])?;
        let expected = [stretch(5, 10, 7, 2), stretch(5, 12, 8, 2)];
        assert!(rt; timeline.stretches() == expected.as_slice());
        assert!(rt; timeline.next() == 9);
    }
    Ok(())
}

#[test]
fn a_full_one_takes_more_of_its_last_window_alone(rt: HostRuntime) -> Result<(), Fail> {
    let mut timeline = Timeline::new(rt.alloc(), 0, Some(2));
    let one = Block {
        time: 0,
        message: 0,
        updates: 1,
    };
    for window in 0u32..1024 {
        let time = window * 2;
        assert!(rt; timeline.add(Block { time, ..one })?);
    }
    assert!(rt; timeline.add(Block { time: 2047, ..one })?);
    assert!(rt; !timeline.add(Block { time: 2048, ..one })?);
    assert!(rt; timeline.stretches().len() == 1024 && timeline.next() == 1025);
    assert!(rt; timeline.stretches().last() == Some(&stretch(2046, 0, 1023, 2)));
    Ok(())
}

#[test]
fn it_is_written_in_json(rt: HostRuntime) -> Result<(), Fail> {
    let facts = Facts {
        size: ScreenSize {
            width: 640,
            height: 480,
        },
        messages: 14,
        length: 61210,
    };
    let rows: [(&[u32], &[u8]); 2] = [
        (
            &[],
            b"{\"width\":640,\"height\":480,\"messages\":14,\"length\":61210,\"stretches\":[],\"next\":7}\n",
        ),
        (
            &[0, 61210],
            b"{\"width\":640,\"height\":480,\"messages\":14,\"length\":61210,\"stretches\":[\
            {\"time\":0,\"message\":10,\"block\":7,\"updates\":2},\
            {\"time\":61210,\"message\":12,\"block\":8,\"updates\":2}],\"next\":9}\n",
        ),
    ];
    for (times, expected) in rows {
        let timeline = timeline_of(rt.alloc(), None, times)?;
        let mut text = Vec::new(rt.alloc());
        write_timeline(facts, &timeline, &mut text)?;
        assert!(rt; text.as_slice() == expected);
    }
    Ok(())
}
