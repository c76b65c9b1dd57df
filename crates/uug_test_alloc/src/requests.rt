use std::cell::Cell;

/// The number of requests that came, and which of them is refused.
#[derive(Drop)]
pub struct Requests {
    came: Cell<u64>,
    refused: Cell<u64>,
}

impl Requests {
    /// Makes a count that refuses the nth request to come. With 0 it refuses none.
    pub fn new(nth: u64) -> Self {
        Requests {
            came: Cell::new(0),
            refused: Cell::new(nth),
        }
    }

    /// Restarts the count, as `new` does.
    pub fn restart(&self, nth: u64) {
        self.came.set(0);
        self.refused.set(nth);
    }

    /// Counts one request, and returns whether it is the one to refuse.
    pub fn refuses_next(&self) -> bool {
        let came = self.came.get().saturating_add(1);
        self.came.set(came);
        came == self.refused.get()
    }

    /// Returns the number of requests since the count began.
    pub fn came(&self) -> u64 {
        self.came.get()
    }

    /// Returns whether the one to refuse has come.
    pub fn is_refused(&self) -> bool {
        let nth = self.refused.get();
        nth != 0 && nth <= self.came.get()
    }
}
