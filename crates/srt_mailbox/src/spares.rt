//! The boxes of replies on their way back, from the end that drains them to the route that fills them again. They
//! return in batches, so that there is no locked operation per box; a separate queue would cost four per box, and five
//! cache lines of another processor. No thread waits for the lock. No contract is about the boxes' contents, since
//! each is overwritten as a whole, nor about the order in which boxes return.

ghost use Rattle.std.specs.Prelude.{◌≡◌, ◌⊎◌, ◌<◌, ◌≤◌, ◌+◌, ◌-◌, ◌^◌, min, [], ◌∷◌, ◌++◌, length, vec_len, vec_capacity};
ghost use Rattle.std.specs.Prelude.{IfOk, IfSome, IfNone};
ghost use Rattle.srt_mailbox.specs.Boxes.{batch_of, boxes_of};

use srt_route::Reply;
use std::alloc::{AllocError, Global};
use std::sync::atomic::{AtomicBool, Ordering};
use std::sync::{Arc, Mutex, Wait};
use std::thread;

// A batch has a sixteenth as many boxes as the outbox has places, and at most this many.
const BATCH: usize = 16;

/// The list in which the drain leaves boxes for the route.
#[derive(Drop)]
pub struct Returned {
    // whether there are boxes: a hint, so that the route tries the lock only if there are some; written under the lock
    any: AtomicBool,
    boxes: Mutex<Vec<Box<Reply>>>,
}

/// The drain's part: the boxes whose replies were read, until they are a batch.
#[derive(Drop)]
pub struct Spent {
    returned: Arc<Returned>,
    boxes: Vec<Box<Reply>>,
    batch: usize,
    /// The number of boxes that were given. Saturates at 2^64 - 1.
    pub(crate) given: u64,
}

/// The route's part: a stack of free boxes. The box that was returned last is used first, so that only as many boxes
/// circulate as there are replies in transit and in two batches, and they stay in the processor's caches.
#[derive(Drop)]
pub struct Boxes {
    returned: Arc<Returned>,
    stock: Vec<Box<Reply>>,
}

/// Both parts for an outbox of this capacity, with all free boxes in the stock: as many as the outbox holds, a batch,
/// and two. Allocates them and three lists that have room for all; an error means that memory was refused.
pub fn open_boxes(alloc: Global, capacity: usize) -> Result<(Boxes, Spent), AllocError>
    ensures stock { IfOk result (λ r. length r.0.stock.items ≡ boxes_of capacity) }
    ensures batch { IfOk result (λ r. r.1.batch ≡ batch_of capacity) }
    ensures given { IfOk result (λ r. (r.1.boxes.items ≡ []) × (r.1.given ≡ 0)) }
{
    let batch = (capacity / 16).clamp(1, BATCH);
    let count = capacity.saturating_add(batch + 2);
    // one more: the box that the drain has from the start
    let room = count.saturating_add(1);
    let mut stock = Vec::with_capacity(alloc, room)?;
    for at in 0..count {
        stock.push(Box::new(alloc, Reply::blank())?)?;
    }
    let ours = Arc::new(
        alloc,
        Returned {
            any: AtomicBool::new(false),
            boxes: Mutex::new(Vec::with_capacity(alloc, room)?),
        },
    )?;
    let theirs = Arc::try_clone(&ours)?;
    let spent = Spent {
        returned: theirs,
        boxes: Vec::with_capacity(alloc, room)?,
        batch,
        given: 0,
    };
    let boxes = Boxes {
        returned: ours,
        stock,
    };
    Ok((boxes, spent))
}

impl Spent {
    /// Returns a box to the route, with the previous ones once they are a batch. Doesn't allocate.
    #[inline(always)]
    pub fn give(&mut self, empty: Box<Reply>)
        ensures given { self.new.given ≡ min (self.old.given + 1) (2 ^ 64 - 1) }
        ensures boxes { vec_len self.old.boxes < vec_capacity self.old.boxes
            → (self.new.boxes.items ≡ self.old.boxes.items ++ empty ∷ []) ⊎ (self.new.boxes.items ≡ []) }
    {
        let _ = self.boxes.push(empty);
        self.given = self.given.saturating_add(1);
        self.flush();
    }

    /// Leaves all boxes for the route if they are a batch or more. If the route has the lock they stay, until the next
    /// call of this function or of `give`. Doesn't allocate.
    #[inline(always)]
    pub fn flush(&mut self)
        ensures given { self.new.given ≡ self.old.given }
        ensures boxes { (self.new.boxes.items ≡ self.old.boxes.items) ⊎ (self.new.boxes.items ≡ []) }
        ensures early { length self.old.boxes.items < self.old.batch → self.new.boxes.items ≡ self.old.boxes.items }
    {
        if self.boxes.len() < self.batch {
            return;
        }
        if let Some(mut left) = self.returned.boxes.try_lock() {
            let _ = left.append(&mut self.boxes);
            self.returned.any.store(true, Ordering::SeqCst);
        }
    }
}

impl Boxes {
    ghost use Rattle.srt_mailbox.specs.Boxes.{HasNoBoxes};

    // Moves the boxes that were returned to the stock, if there are any and the drain hasn't got the lock.
    fn collect(&mut self)
        ensures { length self.old.stock.items ≤ length self.new.stock.items }
    {
        if !self.returned.any.load(Ordering::SeqCst) {
            return;
        }
        if let Some(mut left) = self.returned.boxes.try_lock() {
            let _ = self.stock.append(&mut left);
            self.returned.any.store(false, Ordering::SeqCst);
        }
    }

    /// Returns a free box, if one is in the stock, or was returned and the drain doesn't hold the lock. Its old
    /// contents are to be overwritten.
    #[inline(always)]
    pub fn try_box(&mut self) -> Option<Box<Reply>>
        ensures some { IfSome result (λ _. length self.old.stock.items ≤ length self.new.stock.items + 1) }
        ensures none { IfNone result ((length self.old.stock.items ≡ 0) × (length self.new.stock.items ≡ 0)) }
    {
        self.collect();
        self.stock.pop()
    }

    /// Returns a free box, whose old contents are to be overwritten. There are three boxes more than the outbox and a
    /// batch hold. The drain has at most two (the current one and the previous one) and less than a batch, so one is
    /// in the stock or was returned. A drain that has more found the lock taken: the route had it then, and got a
    /// batch. Once the route has used that up, no other thread holds the lock against the drain, and its next poll of
    /// the outbox returns all that it has. This isn't proved, hence the loop.
    pub fn empty_box<R: Wait>(&mut self, rt: &R) -> Box<Reply>
        ensures { length self.old.stock.items ≤ length self.new.stock.items + 1 }
    {
        for _ in rt.forever() {
            if let Some(place) = self.try_box() {
                return place;
            }
            thread::yield_now();
        }
        unreachable!()
    }

    /// Gives back the free boxes and the memory of the stock, and the boxes that were returned unless the drain has the
    /// lock. For a route that writes no reply any more.
    pub fn discard(&mut self)
        ensures { HasNoBoxes self.new }
    {
        self.stock.clear();
        self.stock.shrink_to_fit();
        if !self.returned.any.load(Ordering::SeqCst) {
            return;
        }
        if let Some(mut left) = self.returned.boxes.try_lock() {
            left.clear();
            self.returned.any.store(false, Ordering::SeqCst);
        }
    }
}
