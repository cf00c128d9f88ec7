// The assembler over the C boundary: its state stands in words that the caller lends. A word past the end of the slice counts as 0 and is not stored, and words
// behind the state's are not looked at.
#![tactic(auto)]

ghost use Rattle.std.specs.Prelude.{◌≡◌, get_or, set};
ghost use Rattle.transport.specs.Assembler.{fresh_assembler, holding, fed_of, taken_of};
ghost use Rattle.c_packet.specs.PacketWords.{state_in, kept_in, fed_number, kept_fed, taken_number, kept_taken};

use transport::Assembler;

// The state's words, and how many they are.
const PID: usize = 0;

const COUNTER: usize = 1;

const HELD: usize = 2;

const AT: usize = 3;

const STATE_WORDS: usize = 4;

// The word at a place, 0 past the end.
fn word_at(words: &[u64], at: usize) -> usize
    ensures { result ≡ get_or words.now at 0 }
{
    words.get(at).map_or(0, |w| *w as usize)
}

// No word changes past the end. (By `get_mut` two goals stayed open: `returns-in-Some`, `returns-in_default`.)
#[tactic(auto, using(crate::proofs::Words::set_past))]
fn put_word(words: &mut [u64], at: usize, v: usize)
    ensures { words.new ≡ set words.old at v }
{
    if at < words.len() {
        words[at] = v as u64;
    }
}

// Where all four words are there, their places are tested once.
fn state_in(words: &[u64]) -> Assembler
    ensures { result ≡ state_in words.now }
{
    if STATE_WORDS <= words.len() {
        return Assembler {
            pid: words[PID] as usize,
            counter: words[COUNTER] as usize,
            held: words[HELD] as usize,
            at: words[AT] as usize,
        };
    }
    Assembler {
        pid: word_at(words, PID),
        counter: word_at(words, COUNTER),
        held: word_at(words, HELD),
        at: word_at(words, AT),
    }
}

#[tactic(auto, using(crate::proofs::Words::four_set))]
fn keep(words: &mut [u64], a: Assembler)
    ensures { words.new ≡ kept_in words.old a }
{
    if STATE_WORDS <= words.len() {
        words[PID] = a.pid as u64;
        words[COUNTER] = a.counter as u64;
        words[HELD] = a.held as u64;
        words[AT] = a.at as u64;
        return;
    }
    put_word(words, PID, a.pid);
    put_word(words, COUNTER, a.counter);
    put_word(words, HELD, a.held);
    put_word(words, AT, a.at);
}

// What `take` changes of the state: the PID and the counter stay.
#[tactic(auto, using(crate::proofs::Words::two_set))]
fn keep_place(words: &mut [u64], held: usize, at: usize)
    ensures { words.new ≡ kept_in words.old (holding (state_in words.old) held at) }
{
    if STATE_WORDS <= words.len() {
        words[HELD] = held as u64;
        words[AT] = at as u64;
        return;
    }
    put_word(words, HELD, held);
    put_word(words, AT, at);
}

// The state before the first packet of a PID.
pub fn start_words(pid: u64, words: &mut [u64])
    ensures { words.new ≡ kept_in words.old (fresh_assembler pid) }
{
    keep(words, Assembler::new(pid as usize))
}

// Takes a packet in: 0, or the number of its refusal, with which no word and no byte of the buffer changes.
#[tactic(auto, unfolding(crate::specs::PacketWords::fed_number, crate::specs::PacketWords::kept_fed))]
pub fn feed_words(words: &mut [u64], packet: &[u8], buffer: &mut [u8]) -> u64
    ensures answer { result ≡ fed_number (fed_of (state_in words.old) packet.now buffer.old).answer }
    ensures state { words.new ≡ kept_fed words.old (fed_of (state_in words.old) packet.now buffer.old).answer }
    ensures bytes { buffer.new ≡ (fed_of (state_in words.old) packet.now buffer.old).buffer }
{
    let mut a = state_in(words);
    match a.feed(packet, buffer) {
        Ok(()) => {
            keep(words, a);
            0
        }
        Err(r) => u64::from(r.number()),
    }
}

// The length of the next section that the packet finishes, which stands at the buffer's start; or 0.
#[tactic(auto, using(transport::proofs::Answers::take_keeps), unfolding(crate::specs::PacketWords::taken_number, crate::specs::PacketWords::kept_taken))]
pub fn take_words(words: &mut [u64], packet: &[u8], buffer: &mut [u8]) -> u64
    ensures answer { result ≡ taken_number (taken_of (state_in words.old) packet.now buffer.old).answer }
    ensures state { words.new ≡ kept_taken words.old (taken_of (state_in words.old) packet.now buffer.old).answer }
    ensures bytes { buffer.new ≡ (taken_of (state_in words.old) packet.now buffer.old).buffer }
{
    let mut a = state_in(words);
    let size = a.take(packet, buffer);
    keep_place(words, a.held, a.at);
    match size {
        Some(size) => size as u64,
        None => 0,
    }
}
