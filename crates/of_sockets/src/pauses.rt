//! Pauses between calls of a controller that nobody answers.
ghost use Rattle.std.specs.Prelude.{◌≡◌, ◌≤◌, ◌+◌, ℕ};
ghost use Rattle.of_sockets.specs.Pauses.{pauses, pauses_from};

/// The first pause, in milliseconds.
pub const FIRST_PAUSE: u64 = 100;

/// The longest, in milliseconds.
pub const LONGEST_PAUSE: u64 = 5_000;

/// How long a switch pauses after each call of a controller that nobody answers: 100 ms, and then twice as long from call
/// to call, up to 5 s.
#[derive(Clone, Copy, PartialEq, Eq)]
pub struct Pauses {
    // in milliseconds
    next: u64,
    ghost short: { next ≤ 5000 },
}

impl Pauses {
    /// Those after the first calls.
    pub fn new() -> Self
        ensures { pauses_from result.next ≡ pauses }
    {
        Pauses { next: FIRST_PAUSE }
    }

    /// Nobody answered a call: how many milliseconds to pause before the next one.
    pub fn next(&mut self) -> u64
        ensures pause { result ≡ pauses_from self.old.next 0 }
        ensures later { (n : ℕ) → pauses_from self.new.next n ≡ pauses_from self.old.next (n + 1) }
    {
        let pause = self.next;
        self.next = (pause * 2).min(LONGEST_PAUSE);
        pause
    }

    /// A call was answered: the pauses begin again.
    pub fn reset(&mut self)
        ensures { pauses_from self.new.next ≡ pauses }
    {
        self.next = FIRST_PAUSE;
    }
}
