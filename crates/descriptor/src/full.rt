// What stands beside a descriptor, for those who ask: the identifier of a reserved one, and the components and the EIDR of a segmentation descriptor.
ghost use Rattle.std.specs.Prelude.{◌≡◌, [], ◌*◌, ◌≤◌, length};
ghost use Rattle.descriptor.specs.Segmentation.{blank_component, component};
ghost use Rattle.descriptor.specs.Private.{filling};
ghost use Rattle.descriptor.specs.Full.{blank_beside, filled, beside_of, beside_read, identifier_read, full_of};
ghost use Rattle.table.specs.Bits.{bits_of};
ghost use Rattle.table.specs.Table.{list, parse};

use crate::back::read_back;
use crate::front::{read_component, read_mode_and_upid};
use crate::segmentation::{MAX_COMPONENTS, SegmentationComponent, SegmentationMode, read_head};
use crate::{Descriptor, read_descriptor};
use table::lent::view;
use table::numbers::size;
use upid::{Refusal, eidr};

// The components, blank past their count, and the EIDR identifier, all zero where the UPID is no EIDR.
#[derive(Clone, Copy)]
pub struct Beside {
    pub components: [SegmentationComponent; MAX_COMPONENTS],
    pub eidr: [u8; 12],
}

// The identifier is all zero where the kind of the descriptor implies it.
#[derive(Clone, Copy)]
pub struct FullDescriptor {
    pub read: Result<Descriptor, Refusal>,
    pub identifier: [u8; 4],
    pub beside: Beside,
}

fn no_components() -> [SegmentationComponent; MAX_COMPONENTS]
    ensures { result ≡ filled [] }
{
    let none = SegmentationComponent {
        component_tag: 0,
        pts_offset: 0,
    };
    [none; MAX_COMPONENTS]
}

// Nothing beside: all components and the EIDR blank.
pub fn blank_beside() -> Beside
    ensures { result ≡ blank_beside }
{
    Beside {
        components: no_components(),
        eidr: [0u8; 12],
    }
}

// n components from a byte on; none where they are not all there.
fn list_components(s: &[u8], from: usize, n: u8) -> [SegmentationComponent; MAX_COMPONENTS]
    requires { from ≤ length s.now }
    ensures { result ≡ filling (filled []) 0 (parse (list n blank_component component) (bits_of s.now) (from * 8)) }
{
    let mut out = no_components();
    let mut next = from;
    for at in 0..size(n) {
        let read = match read_component(s, next) {
            Ok(m) => m,
            Err(_) => return no_components(),
        };
        let component = read.value;
        out[at] = component;
        next = read.next;
    }
    out
}

// What stands beside a segmentation descriptor; nothing where its payload lacks a field. A UPID that is refused is none of its tests, so only who has read the
// descriptor calls it.
fn read_beside(payload: &[u8]) -> Beside
    ensures { result ≡ beside_of payload.now }
{
    let head = match read_head(payload) {
        Ok(h) => h,
        Err(_) => return blank_beside(),
    };
    if head.cancel {
        return blank_beside();
    }
    let fields = match read_mode_and_upid(payload, 5) {
        Some(f) => f,
        None => return blank_beside(),
    };
    match read_back(payload, fields.next) {
        Ok(_) => {}
        Err(_) => return blank_beside(),
    }
    let written = fields.upid;
    let bytes = written.bytes;
    let part = view(payload, bytes);
    let eidr = eidr(written.upid_type, part);
    let mode = fields.mode;
    match mode {
        SegmentationMode::Program => Beside {
            components: no_components(),
            eidr,
        },
        SegmentationMode::Component(n) => Beside {
            components: list_components(payload, 7, n),
            eidr,
        },
    }
}

// What stands beside the reading of a payload.
pub fn beside_of(read: Result<Descriptor, Refusal>, payload: &[u8]) -> Beside
    ensures { result ≡ beside_read read payload.now }
{
    match read {
        Err(_) => blank_beside(),
        Ok(d) => match d {
            Descriptor::Avail(_) => blank_beside(),
            Descriptor::Dtmf(_) => blank_beside(),
            Descriptor::Segmentation(_) => read_beside(payload),
            Descriptor::Time(_) => blank_beside(),
            Descriptor::Reserved {
                tag: _,
                private_bytes: _,
            } => blank_beside(),
        },
    }
}

// The identifier that stands beside a reading: all zero where the descriptor's kind implies it.
pub fn identifier_of(read: Result<Descriptor, Refusal>, identifier: [u8; 4]) -> [u8; 4]
    ensures { result ≡ identifier_read read identifier }
{
    match read {
        Err(_) => [0; 4],
        Ok(d) => match d {
            Descriptor::Avail(_) => [0; 4],
            Descriptor::Dtmf(_) => [0; 4],
            Descriptor::Segmentation(_) => [0; 4],
            Descriptor::Time(_) => [0; 4],
            Descriptor::Reserved {
                tag: _,
                private_bytes: _,
            } => identifier,
        },
    }
}

// The descriptor that a tag, an identifier and a payload make, with all that stands beside it.
pub fn read_full_descriptor(tag: u8, identifier: [u8; 4], payload: &[u8]) -> FullDescriptor
    ensures { result ≡ full_of tag identifier payload.now }
{
    let read = read_descriptor(tag, identifier, payload);
    FullDescriptor {
        read,
        identifier: identifier_of(read, identifier),
        beside: beside_of(read, payload),
    }
}
