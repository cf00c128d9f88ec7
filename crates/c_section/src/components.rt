// The components of an insert.
ghost use Rattle.std.specs.Prelude.{◌≡◌, map};
ghost use Rattle.c_section.specs.FlatCommand.{flat_component, no_components, flat_insert_components};

use crate::commands::flat_command;
use crate::{FlatTime, flat_time};
use command::components::{InsertComponent, MAX_COMPONENTS};
use command::{CommandRefusal, SpliceCommand, number};
use std::array;

#[repr(C)]
#[derive(Clone, Copy)]
pub struct FlatInsertComponent {
    pub component_tag: u64,
    pub splice_time: FlatTime,
}

// The components before the count, blank past it: a time that is not specified.
#[repr(C)]
#[derive(Clone, Copy)]
pub struct FlatInsertComponents {
    pub refusal: u64,
    pub count: u64,
    pub components: [FlatInsertComponent; 255],
}

fn flat_component(c: InsertComponent) -> FlatInsertComponent
    ensures { result ≡ flat_component c }
{
    let time = c.splice_time;
    FlatInsertComponent {
        component_tag: c.component_tag as u64,
        splice_time: flat_time(time),
    }
}

// The C interface has a blank array beside a refusal.
fn no_components() -> [FlatInsertComponent; MAX_COMPONENTS]
    ensures { result ≡ no_components }
{
    [FlatInsertComponent {
        component_tag: 0,
        splice_time: FlatTime { kind: 0, ticks: 0 },
    }; MAX_COMPONENTS]
}

// `from_fn` and not the array's `map`, which takes four times the instructions.
fn flat_components(cs: [InsertComponent; MAX_COMPONENTS]) -> [FlatInsertComponent; MAX_COMPONENTS]
    ensures { result ≡ map flat_component cs }
{
    array::from_fn(|i| flat_component(cs[i]))
}

// Of the answer to an insert's payload, and its components.
pub fn flat_insert_components(
    read: Result<SpliceCommand, CommandRefusal>,
    cs: [InsertComponent; MAX_COMPONENTS],
) -> FlatInsertComponents
    ensures { result ≡ flat_insert_components read cs }
{
    match read {
        Ok(c) => {
            let told = flat_command(c);
            let insert = told.insert;
            let mode = insert.mode;
            FlatInsertComponents {
                refusal: 0,
                count: mode.component_count,
                components: flat_components(cs),
            }
        }
        Err(CommandRefusal::UnknownType) => FlatInsertComponents {
            refusal: number(read) as u64,
            count: 0,
            components: no_components(),
        },
        Err(CommandRefusal::Malformed) => FlatInsertComponents {
            refusal: number(read) as u64,
            count: 0,
            components: no_components(),
        },
    }
}
