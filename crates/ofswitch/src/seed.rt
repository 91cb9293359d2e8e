//! Random numbers.
use of_sockets::draw_seed;
use of_switch::Seed;

/// A number that only the system knows. None, with a line on standard error, if the system gives none.
pub fn system_seed(rt: &HostRuntime) -> Option<Seed> {
    match draw_seed(rt) {
        Ok(seed) => Some(seed),
        Err(error) => {
            let _ = eprintln!(rt; "cannot draw a random number: {error}");
            None
        }
    }
}
