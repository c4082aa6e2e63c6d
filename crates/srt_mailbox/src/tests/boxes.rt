//! The number of boxes in circulation: the route finds a free one whenever it needs one, so that no step waits.

use crate::spares::{Boxes, Spent, open_boxes};
use srt_route::Reply;
use std::alloc::Global;
use std::collections::VecDeque;
use std::mem;
use std::process::Abort;
use std::test::Fail;

/// Counts the boxes that are available without waiting.
fn free_boxes(boxes: &mut Boxes) -> usize {
    let mut count = 0usize;
    for _ in 0..10_000 {
        if boxes.try_box().is_none() {
            return count;
        }
        count = count.wrapping_add(1);
    }
    count
}

/// Numbers of places of an outbox, and of its free boxes.
const FREE: [(usize, usize); 7] = [
    (16, 19),
    (17, 20),
    (64, 70),
    (255, 272),
    (256, 274),
    (1024, 1042),
    (4096, 4114),
];

fn assert_free(rt: &(impl AllocGlobal + Abort), rows: &[(usize, usize)]) -> Result<(), Fail> {
    for (places, wanted) in rows {
        let (mut boxes, _spent) = open_boxes(rt.alloc(), *places)?;
        assert_eq!(rt; free_boxes(&mut boxes), *wanted);
    }
    Ok(())
}

/// The number of boxes free at first is that of the outbox's places, a batch (a sixteenth of that, 1 to 16), and two.
#[test]
fn a_new_route_has_a_box_for_each_place_a_batch_and_two(rt: HostRuntime) -> Result<(), Fail> {
    assert_free(&rt, &FREE)
}

/// The boxes of a route, its outbox, and the reply that its drain has at hand.
#[derive(Drop)]
struct Round {
    places: usize,
    boxes: Boxes,
    spent: Spent,
    outbox: VecDeque<Box<Reply>>,
    hand: Box<Reply>,
}

impl Round {
    fn open(alloc: Global, places: usize) -> Result<Round, Fail> {
        let (boxes, spent) = open_boxes(alloc, places)?;
        Ok(Round {
            places,
            boxes,
            spent,
            outbox: VecDeque::new(alloc),
            hand: Box::new(alloc, Reply::blank())?,
        })
    }

    /// The route puts a reply. Returns whether a box was free.
    fn put(&mut self) -> Result<bool, Fail> {
        match self.boxes.try_box() {
            Some(place) => {
                self.outbox.push_back(place)?;
                Ok(true)
            }
            None => Ok(false),
        }
    }

    /// The drain receives a reply.
    fn take(&mut self) {
        if let Some(reply) = self.outbox.pop_front() {
            let empty = mem::replace(&mut self.hand, reply);
            self.spent.give(empty);
        }
    }

    /// Replies are put and drained n times; then the outbox is filled, and one more reply waits for a place. Returns
    /// whether a box was always free.
    fn fills_after(&mut self, n: usize) -> Result<bool, Fail> {
        for _ in 0..n {
            if !self.put()? {
                return Ok(false);
            }
            self.take();
        }
        for _ in 0..self.places {
            if !self.put()? {
                return Ok(false);
            }
        }
        Ok(self.boxes.try_box().is_some())
    }
}

/// Fills an outbox of each of these numbers of places, after 0 to 39 replies.
fn assert_fills(rt: &(impl AllocGlobal + Abort), rows: &[usize]) -> Result<(), Fail> {
    for places in rows {
        for n in 0..40 {
            assert!(rt; Round::open(rt.alloc(), *places)?.fills_after(n)?, "{n}");
        }
    }
    Ok(())
}

/// Whichever part of a batch the drain has, there are boxes for a full outbox and for the reply that waits.
#[test]
fn a_box_is_free_behind_a_full_outbox(rt: HostRuntime) -> Result<(), Fail> {
    assert_fills(&rt, &[16, 17, 64, 300])
}
