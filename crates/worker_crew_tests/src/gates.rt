use da_shelf::Gate;
use std::sync::atomic::{AtomicU64, Ordering};

/// A gate that counts its entries.
#[derive(Drop)]
pub struct CountingGate {
    entries: AtomicU64,
}

impl CountingGate {
    /// A gate that nobody has entered.
    pub fn new() -> CountingGate {
        CountingGate {
            entries: AtomicU64::new(0),
        }
    }

    /// How often a worker entered.
    pub fn entries(&self) -> u64 {
        self.entries.load(Ordering::SeqCst)
    }
}

impl Gate for CountingGate {
    fn enter(&self, _seat: u32, _component: u32) {
        self.entries.fetch_add(1, Ordering::SeqCst);
    }

    fn leave(&self, _seat: u32, _component: u32) {}
}

// How often the first worker looks for another before it goes on.
const MOST_LOOKS: u64 = 1_000_000_000;

/// A gate in which the first worker waits until another enters.
#[derive(Drop)]
pub struct MeetingGate {
    entries: AtomicU64,
    met: AtomicU64,
}

impl MeetingGate {
    /// A gate that nobody has entered.
    pub fn new() -> MeetingGate {
        MeetingGate {
            entries: AtomicU64::new(0),
            met: AtomicU64::new(0),
        }
    }

    /// Whether another worker entered while the first was in the gate.
    pub fn met(&self) -> bool {
        self.met.load(Ordering::SeqCst) == 1
    }
}

impl Gate for MeetingGate {
    fn enter(&self, _seat: u32, _component: u32) {
        if self.entries.fetch_add(1, Ordering::SeqCst) > 0 {
            return;
        }
        for _ in 0..MOST_LOOKS {
            if self.entries.load(Ordering::SeqCst) > 1 {
                self.met.store(1, Ordering::SeqCst);
                return;
            }
        }
    }

    fn leave(&self, _seat: u32, _component: u32) {}
}

/// A gate that watches the workers of up to four seats: each enters with a component, from 0 to 63, that nobody entered with before, and
/// leaves with it before it enters with the next.
#[derive(Drop)]
pub struct WatchingGate {
    // a bit for each component that was entered with
    entered: AtomicU64,
    // 16 bits for each seat: the component that its worker is in with, and one more, or 0
    inside: AtomicU64,
    faults: AtomicU64,
}

impl WatchingGate {
    /// A gate that nobody has entered.
    pub fn new() -> WatchingGate {
        WatchingGate {
            entered: AtomicU64::new(0),
            inside: AtomicU64::new(0),
            faults: AtomicU64::new(0),
        }
    }

    /// Whether exactly these components were entered with, a bit for each, all were left, and nothing was out of order.
    pub fn saw(&self, components: u64) -> bool {
        self.entered.load(Ordering::SeqCst) == components
            && self.inside.load(Ordering::SeqCst) == 0
            && self.faults.load(Ordering::SeqCst) == 0
    }

    // Notes something out of order, where this is.
    fn note(&self, is_fault: bool) {
        if is_fault {
            self.faults.fetch_add(1, Ordering::SeqCst);
        }
    }
}

// What the seat's bits have while its worker is in with the component.
fn bits_of(seat: u32, component: u32) -> u64 {
    (u64::from(component % 64) + 1) << (16 * (seat % 4))
}

// The bits of the seat.
fn seat_bits(bits: u64, seat: u32) -> u64 {
    bits & (65_535 << (16 * (seat % 4)))
}

impl Gate for WatchingGate {
    fn enter(&self, seat: u32, component: u32) {
        self.note(seat > 3 || component > 63);
        let bit = 1u64 << (component % 64);
        let before = self.entered.fetch_or(bit, Ordering::SeqCst);
        self.note(before & bit != 0);
        let inside = self
            .inside
            .fetch_add(bits_of(seat, component), Ordering::SeqCst);
        self.note(seat_bits(inside, seat) != 0);
    }

    fn leave(&self, seat: u32, component: u32) {
        let bits = bits_of(seat, component);
        let inside = self.inside.fetch_sub(bits, Ordering::SeqCst);
        self.note(seat_bits(inside, seat) != bits);
    }
}
