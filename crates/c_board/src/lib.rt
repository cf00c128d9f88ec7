// The board of two channels over the C boundary: 66 words that the caller lends. The first 32 hold the event id (above) and the provider id (below) of each
// place, the next 32 whether it is taken (the lowest bit) and by which channel, the last two the next id of each channel. Every run of 66 words is a board; a
// shorter one is refused (36). Only an accepted call changes the words.
#![tactic(auto)]

ghost use Rattle.std.specs.Prelude.{◌+◌, ◌≤◌, ◌<◌, ◌≡◌, Err, length, slice_index};
ghost use Rattle.channels.specs.Channels.{refusal_of};
ghost use Rattle.c_board.specs.Words.{place_given, places_given, whose_given, board_given, ids_word, mark_word, word_at, stored};
ghost use Rattle.c_board.specs.Lent.{flat_reply, settled, emptied, opened, closed};

use board::{Place, Refusal};
use channels::{ChannelRefusal, SharedBoard};
use std::array;

// To an opening its event id, to a closing the provider id; or the number of the refusal.
#[repr(C)]
#[derive(Clone, Copy)]
pub struct FlatBoardAnswer {
    pub refusal: u64,
    pub id: u64,
}

impl From<Result<u32, ChannelRefusal>> for FlatBoardAnswer {
    ghost from_gives = { λ reply flat. flat ≡ flat_reply reply };

    fn from(reply: Result<u32, ChannelRefusal>) -> FlatBoardAnswer {
        match reply {
            Ok(id) => FlatBoardAnswer {
                refusal: 0,
                id: id as u64,
            },
            Err(refusal) => FlatBoardAnswer {
                refusal: number_of(refusal),
                id: 0,
            },
        }
    }
}

// How many places there are, where their marks and the next ids stand, and how many words all are. An event id counts ABOVE times in its word.
const PLACES: usize = 32;

const MARKS: usize = 32;

const NEXT: usize = 64;

const NEXT_OF_SECOND: usize = 65;

const BOARD_WORDS: usize = 66;

const ABOVE: u64 = 4294967296;

fn place_at(words: &[u64], i: usize) -> Place
    requires { (66 ≤ length words.now) × (i < 32) }
    ensures { result ≡ place_given (slice_index words.now i) (slice_index words.now (32 + i)) }
{
    let ids = words[i];
    Place {
        used: words[MARKS + i] % 2 == 1,
        event: (ids / ABOVE) as u32,
        provider: (ids % ABOVE) as u32,
    }
}

fn places_given(words: &[u64]) -> [Place; PLACES]
    requires { 66 ≤ length words.now }
    ensures { result ≡ places_given words.now }
{
    array::from_fn(|i| place_at(words, i))
}

fn whose_given(words: &[u64]) -> [u8; PLACES]
    requires { 66 ≤ length words.now }
    ensures { result ≡ whose_given words.now }
{
    array::from_fn(|i| (words[MARKS + i] / 2 % 256) as u8)
}

fn board_given(words: &[u64]) -> SharedBoard
    requires { 66 ≤ length words.now }
    ensures { result ≡ board_given words.now }
{
    SharedBoard {
        places: places_given(words),
        whose: whose_given(words),
        next: [
            (words[NEXT] % ABOVE) as u32,
            (words[NEXT_OF_SECOND] % ABOVE) as u32,
        ],
    }
}

fn ids_word(p: &Place) -> u64
    ensures { result ≡ ids_word p.now }
{
    (p.event as u64) * ABOVE + (p.provider as u64)
}

fn mark_word(p: &Place, whose: u8) -> u64
    ensures { result ≡ mark_word p.now whose }
{
    if p.used {
        return (whose as u64) * 2 + 1;
    }
    (whose as u64) * 2
}

// A board's word at a place, 65 being the last.
fn word_at(b: &SharedBoard, at: usize) -> u64
    ensures { result ≡ word_at b.now at }
{
    let p = b.places[at % PLACES];
    if at < MARKS {
        return ids_word(&p);
    }
    if at < NEXT {
        return mark_word(&p, b.whose[at % PLACES]);
    }
    b.next[at % 2] as u64
}

fn put_board(words: &mut [u64], b: &SharedBoard)
    requires { 66 ≤ length words.old }
    ensures { words.new ≡ stored b.now words.old }
{
    for (i, word) in words[..BOARD_WORDS].iter_mut().enumerate() {
        *word = word_at(b, i);
    }
}

fn number_of(refusal: ChannelRefusal) -> u64
    ensures { result ≡ refusal_of (Err refusal) }
{
    match refusal {
        ChannelRefusal::NoSuchChannel => 63,
        ChannelRefusal::Board(Refusal::BoardFull) => 61,
        ChannelRefusal::Board(Refusal::NotOpen) => 62,
    }
}

// Stores the board where its call was accepted, and hands the answer on.
fn settle(words: &mut [u64], reply: Result<u32, ChannelRefusal>, b: &SharedBoard) -> FlatBoardAnswer
    requires { 66 ≤ length words.old }
    ensures answer { result ≡ flat_reply reply }
    ensures words { words.new ≡ settled (flat_reply reply) b.now words.old }
{
    if reply.is_ok() {
        put_board(words, b);
    }
    FlatBoardAnswer::from(reply)
}

fn too_short() -> FlatBoardAnswer
    ensures { result ≡ record { refusal = 36; id = 0 } }
{
    FlatBoardAnswer { refusal: 36, id: 0 }
}

pub fn empty_words(words: &mut [u64]) -> FlatBoardAnswer
    ensures answer { result ≡ (emptied words.old).answer }
    ensures words { words.new ≡ (emptied words.old).words }
{
    if words.len() < BOARD_WORDS {
        return too_short();
    }
    put_board(words, &SharedBoard::empty());
    FlatBoardAnswer { refusal: 0, id: 0 }
}

// Two functions, and not one that takes the call as a closure: by F.post its clauses would say less plainly what these say.
pub fn open_words(words: &mut [u64], channel: u8, provider: u32) -> FlatBoardAnswer
    ensures answer { result ≡ (opened words.old channel provider).answer }
    ensures words { words.new ≡ (opened words.old channel provider).words }
{
    if words.len() < BOARD_WORDS {
        return too_short();
    }
    let mut b = board_given(words);
    let reply = b.open_break(channel, provider);
    settle(words, reply, &b)
}

pub fn close_words(words: &mut [u64], channel: u8, event: u32) -> FlatBoardAnswer
    ensures answer { result ≡ (closed words.old channel event).answer }
    ensures words { words.new ≡ (closed words.old channel event).words }
{
    if words.len() < BOARD_WORDS {
        return too_short();
    }
    let mut b = board_given(words);
    let reply = b.close_break(channel, event);
    settle(words, reply, &b)
}
