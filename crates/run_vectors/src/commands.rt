// The header and the command of a section.
use crate::say::{bytes, time};
use command::SpliceCommand;
use command::components::read_components;
use command::insert::{InsertDetail, SpliceDetail, SpliceInsert, SpliceMode};
use header::header::SpliceInfoHeader;
use section::private_bytes_of;
use std::io;
use table::View;
use table::lent::view;

pub fn header(rt: &impl Print, h: SpliceInfoHeader) -> io::Result<()> {
    print!(rt;
        "header {} {} {} {} {} {} {} {}",
        h.protocol_version,
        u8::from(h.encrypted_packet),
        u8::from(h.encryption_algorithm),
        h.pts_adjustment,
        h.cw_index,
        h.tier,
        h.splice_command_length,
        u8::from(h.splice_command_type)
    )
}

pub fn command(rt: &impl Print, s: &[u8], h: SpliceInfoHeader, c: SpliceCommand) -> io::Result<()> {
    match c {
        SpliceCommand::SpliceNull => print!(rt; " null"),
        SpliceCommand::SpliceInsert(i) => {
            let payload = View {
                at: 14,
                len: h.splice_command_length as usize,
            };
            insertion(rt, view(s, payload), i)
        }
        SpliceCommand::TimeSignal(t) => {
            print!(rt; " signal")?;
            time(rt, t)
        }
        SpliceCommand::BandwidthReservation => print!(rt; " bandwidth"),
        SpliceCommand::PrivateCommand(p) => {
            print!(rt; " private {}", p.identifier)?;
            bytes(rt, private_bytes_of(s, c))
        }
    }
}

fn insertion(rt: &impl Print, payload: &[u8], i: SpliceInsert) -> io::Result<()> {
    match i.splice_detail {
        SpliceDetail::Cancel => print!(rt; " cancelled {} {}", i.splice_event_id, i.reserved),
        SpliceDetail::Insert(x) => {
            print!(rt; " insert {} {}", i.splice_event_id, i.reserved)?;
            insert(rt, payload, x)
        }
    }
}

fn insert(rt: &impl Print, payload: &[u8], x: InsertDetail) -> io::Result<()> {
    print!(rt; " {}", u8::from(x.network_indicator))?;
    match x.splice_mode {
        SpliceMode::Program(t) => {
            print!(rt; " program")?;
            time(rt, t)?;
        }
        SpliceMode::Components(n) => components(rt, payload, n)?,
    }
    if let Some(d) = x.duration {
        print!(rt; " duration {} {}", u8::from(d.return_mode), d.duration)?;
    }
    print!(rt;
        " {} {} {}",
        x.unique_program_id, x.avail_num, x.avails_expected
    )
}

fn components(rt: &impl Print, payload: &[u8], n: u8) -> io::Result<()> {
    print!(rt; " components {n}")?;
    let listed = read_components(payload);
    for c in listed.components.iter().take(n as usize) {
        print!(rt; " {}", c.component_tag)?;
        time(rt, c.splice_time)?;
    }
    Ok(())
}
