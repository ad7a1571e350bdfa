//! What idle workers of one run wait for.
use std::sync::{Condvar, Mutex, Wait};
use std::thread;

// How many workers measure now, and how often one of them began or ended, wrapping round.
#[derive(Clone, Copy, Drop)]
struct Told {
    measuring: u32,
    news: u64,
}

/// What a worker does where a round over all sessions brought nothing.
pub(crate) trait Rest {
    /// How often something was told so far.
    fn heard<R: Wait>(&self, rt: &R) -> u64;

    /// Tells that a measurement begins.
    fn begin<R: Wait>(&self, rt: &R);

    /// Tells that the result of a measurement was recorded.
    fn end<R: Wait>(&self, rt: &R);

    /// Waits for something new, where that is sure to come; `heard` is what was told when the round began.
    fn rest<R: Wait>(&self, rt: &R, heard: u64);
}

/// A worker of its own, that nobody tells anything: it lets other threads run.
#[derive(Clone, Copy)]
pub(crate) struct Alone;

impl Rest for Alone {
    fn heard<R: Wait>(&self, _rt: &R) -> u64 {
        0
    }

    fn begin<R: Wait>(&self, _rt: &R) {}

    fn end<R: Wait>(&self, _rt: &R) {}

    fn rest<R: Wait>(&self, _rt: &R, _heard: u64) {
        thread::yield_now();
    }
}

/// The workers of one run, who tell each other when they begin and end to measure.
#[derive(Drop)]
pub(crate) struct Bell {
    told: Mutex<Told>,
    rings: Condvar,
}

impl Bell {
    pub(crate) fn new() -> Bell {
        Bell {
            told: Mutex::new(Told {
                measuring: 0,
                news: 0,
            }),
            rings: Condvar::new(),
        }
    }
}

impl Rest for Bell {
    fn heard<R: Wait>(&self, rt: &R) -> u64 {
        self.told.lock(rt).news
    }

    fn begin<R: Wait>(&self, rt: &R) {
        {
            let mut told = self.told.lock(rt);
            told.measuring = told.measuring.saturating_add(1);
            told.news = told.news.wrapping_add(1);
        }
        self.rings.notify_all();
    }

    fn end<R: Wait>(&self, rt: &R) {
        {
            let mut told = self.told.lock(rt);
            told.measuring = told.measuring.saturating_sub(1);
            told.news = told.news.wrapping_add(1);
        }
        self.rings.notify_all();
    }

    // Sleeps only while another worker measures, which rings when its result is recorded. What was told since
    // the round began may be a move that the round didn't see, and then it doesn't sleep.
    fn rest<R: Wait>(&self, rt: &R, heard: u64) {
        let told = self.told.lock(rt);
        if told.measuring > 0 && told.news == heard {
            let _told = self.rings.wait(rt, told);
            return;
        }
        drop(told);
        thread::yield_now();
    }
}
