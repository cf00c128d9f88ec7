// Two channels on one board (Q-8). The 32 places are shared: none belongs to a channel, and each says whose break stands in it.
#![tactic(auto)]

ghost use Rattle.std.specs.Prelude.{◌≡◌, ◌<◌, length, slice_index, slice_index_or};
ghost use Rattle.board.specs.Board.{blank_place, breaks_of};
ghost use Rattle.channels.specs.Channels.{empty_shared, seen_as, seen_by, open_of, close_of};
ghost use Rattle.channels.specs.declared.ChannelRefusal.TheVariants.{Board};

use board::{Place, Refusal, blank_place, free_id, free_place, place_of};
use std::array;

// `whose[i]` is the channel of the break in `places[i]`; of a free place it says nothing. `next` has an id for each channel.
// Two arrays and not one of pairs: the searches of crate board (`free_place`) take the places alone.
#[derive(Clone, Copy)]
pub struct SharedBoard {
    pub places: [Place; 32],
    pub whose: [u8; 32],
    pub next: [u32; 2],
}

// Refusal 63, or one of Q-7's board: 61 and 62.
#[derive(Clone, Copy, Debug, PartialEq, Eq)]
pub enum ChannelRefusal {
    NoSuchChannel,
    Board(Refusal),
}

impl From<Refusal> for ChannelRefusal {
    ghost from_gives = { λ refusal told. told ≡ Board refusal };

    fn from(refusal: Refusal) -> ChannelRefusal {
        ChannelRefusal::Board(refusal)
    }
}

// How many breaks stand in these places.
fn count(places: &[Place]) -> usize
    ensures { result ≡ length (breaks_of places.now) }
{
    places.iter().filter(|p| p.used).count()
}

impl SharedBoard {
    pub fn empty() -> SharedBoard
        ensures { result ≡ empty_shared }
    {
        SharedBoard {
            places: [blank_place(); 32],
            whose: [0; 32],
            next: [1; 2],
        }
    }

    // A place as a channel sees it: another's break is blank.
    fn seen_at(&self, i: usize, channel: u8) -> Place
        requires { i < 32 }
        ensures { result ≡ seen_as channel (slice_index_or self.now.places i blank_place) (slice_index self.now.whose i) }
    {
        if self.whose[i] == channel {
            self.places[i]
        } else {
            blank_place()
        }
    }

    // The places as a channel sees them.
    fn seen(&self, channel: u8) -> [Place; 32]
        ensures { result ≡ seen_by channel self.now.places self.now.whose }
    {
        array::from_fn(|i| self.seen_at(i, channel))
    }

    // Opens a break on a channel: 63 for no channel, 61 where the channel holds 16. On a board that no calls make all places may be taken before
    // that: 61 too.
    pub fn open_break(&mut self, channel: u8, provider: u32) -> Result<u32, ChannelRefusal>
        ensures reply { result ≡ (open_of self.old channel provider).reply }
        ensures board { self.new ≡ (open_of self.old channel provider).board }
    {
        if 1 < channel {
            return Err(ChannelRefusal::NoSuchChannel);
        }
        let mine = self.seen(channel);
        if 16 <= count(&mine) {
            return Err(ChannelRefusal::Board(Refusal::BoardFull));
        }
        let at = free_place(&self.places).ok_or(Refusal::BoardFull)?;
        let c = usize::from(channel);
        let event = free_id(&mine, self.next[c], 16);
        self.places[at] = Place {
            used: true,
            event,
            provider,
        };
        self.whose[at] = channel;
        self.next[c] = event.wrapping_add(1);
        Ok(event)
    }

    // Closes a break of a channel: 63 for no channel, 62 where none of the channel's breaks has this event id.
    pub fn close_break(&mut self, channel: u8, event: u32) -> Result<u32, ChannelRefusal>
        ensures reply { result ≡ (close_of self.old channel event).reply }
        ensures board { self.new ≡ (close_of self.old channel event).board }
    {
        if 1 < channel {
            return Err(ChannelRefusal::NoSuchChannel);
        }
        let mine = self.seen(channel);
        let at = place_of(&mine, event).ok_or(Refusal::NotOpen)?;
        self.places[at] = blank_place();
        Ok(mine[at].provider)
    }
}
