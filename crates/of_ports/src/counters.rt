//! What ports count (OpenFlow 1.3.5, 5.8).
ghost use Rattle.std.specs.Prelude.{◌≡◌};
ghost use Rattle.of_ports.specs.Counters.{no_counters, plus, tally};

/// What a port has counted since it was added (OpenFlow 1.3.5, 5.8). Counters wrap.
#[derive(Clone, Copy, PartialEq, Eq)]
pub struct PortCounters {
    pub rx_packets: u64,
    pub tx_packets: u64,
    pub rx_bytes: u64,
    pub tx_bytes: u64,
    pub rx_dropped: u64,
    pub tx_dropped: u64,
    pub rx_errors: u64,
}

/// What a port counts (OpenFlow 1.3.5, 5.8).
#[derive(Clone, Copy, PartialEq, Eq)]
pub enum PortCount {
    /// A frame of this many bytes was received.
    Received(usize),
    /// A frame arrived that the port may not receive.
    ReceiveDropped,
    /// A frame arrived that was too short or too long.
    ReceiveError,
    /// A frame of this many bytes was sent.
    Sent(usize),
    /// A frame could not be sent.
    SendDropped,
}

// The counter plus `more`.
fn plus_bytes(counter: u64, more: usize) -> u64
    ensures { result ≡ plus counter more }
{
    counter.wrapping_add(more as u64)
}

impl PortCounters {
    /// Nothing is counted so far.
    pub fn new() -> PortCounters
        ensures { result ≡ no_counters }
    {
        PortCounters {
            rx_packets: 0,
            tx_packets: 0,
            rx_bytes: 0,
            tx_bytes: 0,
            rx_dropped: 0,
            tx_dropped: 0,
            rx_errors: 0,
        }
    }

    /// The counters once this was counted too.
    pub(crate) fn with(self, what: PortCount) -> PortCounters
        ensures { result ≡ tally what self }
    {
        match what {
            PortCount::Received(bytes) => PortCounters {
                rx_packets: self.rx_packets.wrapping_add(1),
                rx_bytes: plus_bytes(self.rx_bytes, bytes),
                ..self
            },
            PortCount::ReceiveDropped => PortCounters {
                rx_dropped: self.rx_dropped.wrapping_add(1),
                ..self
            },
            PortCount::ReceiveError => PortCounters {
                rx_errors: self.rx_errors.wrapping_add(1),
                ..self
            },
            PortCount::Sent(bytes) => PortCounters {
                tx_packets: self.tx_packets.wrapping_add(1),
                tx_bytes: plus_bytes(self.tx_bytes, bytes),
                ..self
            },
            PortCount::SendDropped => PortCounters {
                tx_dropped: self.tx_dropped.wrapping_add(1),
                ..self
            },
        }
    }
}
