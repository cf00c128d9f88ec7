// Sections from transport packets: the assembler of one PID, whose state stands in words that the caller lends.
ghost use Rattle.std.specs.Prelude.{◌≡◌};
ghost use Rattle.transport.specs.Assembler.{fresh_assembler, fed_of, taken_of};
ghost use Rattle.c_packet.specs.PacketWords.{state_in, kept_in, fed_number, kept_fed, taken_number, kept_taken};

// The state before the first packet of a PID.
#[unsafe(no_mangle)]
pub extern "C" fn scte35_packet_start(pid: u64, state: &mut [u64])
    ensures { state.new ≡ kept_in state.old (fresh_assembler pid) }
{
    scte35::packet::scte35_packet_start(pid, state)
}

// Takes a packet in: 0, or the number of its refusal, with which nothing changes.
#[unsafe(no_mangle)]
pub extern "C" fn scte35_packet_feed(state: &mut [u64], packet: &[u8], buffer: &mut [u8]) -> u64
    ensures answer { result ≡ fed_number (fed_of (state_in state.old) packet.now buffer.old).answer }
    ensures state { state.new ≡ kept_fed state.old (fed_of (state_in state.old) packet.now buffer.old).answer }
    ensures bytes { buffer.new ≡ (fed_of (state_in state.old) packet.now buffer.old).buffer }
{
    scte35::packet::scte35_packet_feed(state, packet, buffer)
}

// The length of the next section that the packet finishes; 0 where nothing is left of it.
#[unsafe(no_mangle)]
pub extern "C" fn scte35_packet_take(state: &mut [u64], packet: &[u8], buffer: &mut [u8]) -> u64
    ensures answer { result ≡ taken_number (taken_of (state_in state.old) packet.now buffer.old).answer }
    ensures state { state.new ≡ kept_taken state.old (taken_of (state_in state.old) packet.now buffer.old).answer }
    ensures bytes { buffer.new ≡ (taken_of (state_in state.old) packet.now buffer.old).buffer }
{
    scte35::packet::scte35_packet_take(state, packet, buffer)
}
