// How far a file is read in order, and how much of it is worth asking for at once.

// How many bytes the machine is asked for where a file is read on: first these, and then twice as many each time, up to
// the greatest count. So the rest of a short range costs no long read.
const FIRST_AHEAD: usize = 4_096;

const MAX_AHEAD: usize = 65_536;

// How many bytes may be passed over where reading goes on: as many more cost less than another call.
const MAX_GAP: u64 = 4_096;

// What was read in order, from a place to a place, and how many bytes are next worth asking for.
#[derive(Drop)]
pub(crate) struct Span {
    from: u64,
    to: u64,
    ahead: usize,
}

impl Span {
    // Nothing was read: no place is after its end.
    pub(crate) fn new() -> Span {
        Span {
            from: u64::MAX,
            to: u64::MAX,
            ahead: 0,
        }
    }

    // Whether a read from a place on goes on here, with at most a short gap.
    fn reaches(&self, place: u64) -> bool {
        match place.checked_sub(self.to) {
            Some(gap) => gap <= MAX_GAP,
            None => false,
        }
    }

    // Reading goes on at a place. Where that is elsewhere, another span begins, of which as many bytes are asked for at
    // first as the last one has: so ranges of one length are read by one call each.
    pub(crate) fn turn_to(&mut self, place: u64) {
        if !self.reaches(place) {
            self.ahead = self.to.saturating_sub(self.from).min(MAX_AHEAD as u64) as usize;
            self.from = place;
        }
        self.to = place;
    }

    // How many bytes are worth asking for at its end.
    pub(crate) fn wanted(&self) -> usize {
        if self.from == self.to {
            self.ahead
        } else {
            self.ahead.max(FIRST_AHEAD)
        }
    }

    // So many bytes as are worth it were asked for at its end.
    pub(crate) fn ask(&mut self) {
        self.ahead = if self.from == self.to {
            FIRST_AHEAD
        } else {
            self.wanted().saturating_mul(2).min(MAX_AHEAD)
        };
    }

    // So many bytes more were read at its end.
    pub(crate) fn grow(&mut self, count: usize) {
        self.to = self.to.saturating_add(count as u64);
    }
}
