// The open-break board (Q-7): 32 places for breaks now open.
#![tactic(auto)]

ghost use Rattle.std.specs.Prelude.{◌≡◌, position};
ghost use Rattle.board.specs.Breaks.{free_from};
ghost use Rattle.board.specs.Board.{blank_place, empty_board, is_free, holds, breaks_of, open_of, close_of};

// A place: free, or with an open break's event id and provider id. A free place that calls make is all zero.
// A flag and not an Option: of a free place in lent words both numbers are kept (`place_given`, `ids_word` and `opened` of c_board).
#[derive(Clone, Copy)]
pub struct Place {
    pub used: bool,
    pub event: u32,
    pub provider: u32,
}

impl Place {
    fn holds(&self, event: u32) -> bool
        ensures { result ≡ holds event self.now }
    {
        self.used && self.event == event
    }
}

// `next` is the event id from which the next opening looks for its own.
#[derive(Clone, Copy)]
pub struct Board {
    pub places: [Place; 32],
    pub next: u32,
}

// Refusals 61 and 62.
#[derive(Clone, Copy, Debug, PartialEq, Eq)]
pub enum Refusal {
    BoardFull,
    NotOpen,
}

pub fn blank_place() -> Place
    ensures { result ≡ blank_place }
{
    Place {
        used: false,
        event: 0,
        provider: 0,
    }
}

// The first free place.
pub fn free_place(places: &[Place]) -> Option<usize>
    ensures { result ≡ position is_free places.now }
{
    places.iter().position(|p| !p.used)
}

// The first place with a break of this event id.
pub fn place_of(places: &[Place], event: u32) -> Option<usize>
    ensures { result ≡ position (holds event) places.now }
{
    places.iter().position(|p| p.holds(event))
}

// The first event id from `next` on that is not open. With fewer than `most` open, fewer than `most` are passed over (proofs/Fresh.antt).
pub fn free_id(places: &[Place], next: u32, most: u32) -> u32
    ensures { result ≡ free_from most (breaks_of places.now) next }
{
    let mut id = next;
    for _ in 0..most {
        if place_of(places, id).is_none() {
            return id;
        }
        id = id.wrapping_add(1);
    }
    id
}

impl Board {
    pub fn empty() -> Board
        ensures { result ≡ empty_board }
    {
        Board {
            places: [blank_place(); 32],
            next: 1,
        }
    }

    // Opens a break for this provider id: its event id, or 61 where all places are taken.
    pub fn open_break(&mut self, provider: u32) -> Result<u32, Refusal>
        ensures answer { result ≡ (open_of self.old provider).answer }
        ensures board { self.new ≡ (open_of self.old provider).board }
    {
        let at = free_place(&self.places).ok_or(Refusal::BoardFull)?;
        let event = free_id(&self.places, self.next, 32);
        self.places[at] = Place {
            used: true,
            event,
            provider,
        };
        self.next = event.wrapping_add(1);
        Ok(event)
    }

    // Closes the break with this event id: its provider id, or 62 where none has it.
    pub fn close_break(&mut self, event: u32) -> Result<u32, Refusal>
        ensures answer { result ≡ (close_of self.old event).answer }
        ensures board { self.new ≡ (close_of self.old event).board }
    {
        let at = place_of(&self.places, event).ok_or(Refusal::NotOpen)?;
        let provider = self.places[at].provider;
        self.places[at] = blank_place();
        Ok(provider)
    }
}
