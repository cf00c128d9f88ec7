// The open-break board of two channels (Q-7, Q-8) in 66 words that the caller lends. Only an accepted call changes them; a shorter run is refused (36).
ghost use Rattle.std.specs.Prelude.{◌≡◌};
ghost use Rattle.c_board.specs.Lent.{emptied, opened, closed};

use c_board::FlatBoardAnswer;

// No break open, next id 1 for either channel.
#[unsafe(no_mangle)]
pub extern "C" fn scte35_board_empty(board: &mut [u64]) -> FlatBoardAnswer
    ensures answer { result ≡ (emptied board.old).answer }
    ensures words { board.new ≡ (emptied board.old).words }
{
    scte35::shared_board::scte35_board_empty(board)
}

// The event id for a provider id.
#[unsafe(no_mangle)]
pub extern "C" fn scte35_board_open(
    board: &mut [u64],
    channel: u8,
    provider_id: u32,
) -> FlatBoardAnswer
    ensures answer { result ≡ (opened board.old channel provider_id).answer }
    ensures words { board.new ≡ (opened board.old channel provider_id).words }
{
    scte35::shared_board::scte35_board_open(board, channel, provider_id)
}

// The provider id of an event id.
#[unsafe(no_mangle)]
pub extern "C" fn scte35_board_close(
    board: &mut [u64],
    channel: u8,
    event_id: u32,
) -> FlatBoardAnswer
    ensures answer { result ≡ (closed board.old channel event_id).answer }
    ensures words { board.new ≡ (closed board.old channel event_id).words }
{
    scte35::shared_board::scte35_board_close(board, channel, event_id)
}
