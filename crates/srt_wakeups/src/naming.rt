//! The names of a run's threads, as `top -H` and `ps -L` show them. The thread that polls is the caller's, and keeps its
//! name: that of the process, by which `pgrep` and `top` find it.

ghost use Rattle.std.specs.Prelude.{◌≡◌, ◌++◌, codes};
ghost use Rattle.srt_wakeups.specs.inside.Names.{last_digit, digits_of, text_of, padded};

/// A thread of a run, besides the one that polls.
#[derive(Clone, Copy)]
pub enum ThreadName {
    /// It starts the others and waits for their end: `start`.
    Start,
    /// It ticks: `tick`.
    Tick,
    /// It watches: `watch`.
    Watch,
    /// A worker, by its index from 0 to 98: `work-1`, `work-2` and so on.
    Worker(usize),
}

/// The last decimal digit of a number, as ASCII.
fn last_digit(number: usize) -> u8
    ensures { result ≡ last_digit number }
{
    b'0'.wrapping_add((number % 10) as u8)
}

/// The name of the worker of this number, of two digits at most; zeros follow it.
fn name_of_worker(number: usize) -> [u8; 7]
    ensures { result ≡ padded (codes "work-" ++ digits_of number) }
{
    if number < 10 {
        [b'w', b'o', b'r', b'k', b'-', last_digit(number), 0]
    } else {
        let tens = last_digit(number / 10);
        [b'w', b'o', b'r', b'k', b'-', tens, last_digit(number)]
    }
}

/// The bytes of a thread's name; zeros follow it.
fn name_of(name: ThreadName) -> [u8; 7]
    ensures { result ≡ padded (text_of name) }
{
    match name {
        ThreadName::Start => *b"start\0\0",
        ThreadName::Tick => *b"tick\0\0\0",
        ThreadName::Watch => *b"watch\0\0",
        ThreadName::Worker(index) => name_of_worker(index.wrapping_add(1)),
    }
}

/// Names the calling thread. If the system refuses, it keeps the name of the thread that started it. The system's name
/// has the bytes before the first zero, so that it is the text of `name_of`; what it is afterwards no clause can state.
pub fn name_thread(name: ThreadName) {
    let _ = os::set_thread_name(&name_of(name));
}
