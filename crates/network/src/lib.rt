//! Networks of gauge stations: refusals, the questions that a network answers,
//! and the packed sheets and neighbour lists that networks are read from.
#![tactic(auto)]

mod bit_fields;
mod list_network;
mod lists;
mod name_lists;
mod net;
mod orders;
mod refusal;
mod seen;
mod sheet_laws;
mod sheets;

ghost use Rattle.network.specs.Laws.{NextIsSmallest, WrittenReads, ReadWrites, ReadWell};

pub use list_network::ListNetwork;
pub use lists::{coupled_stations_are_named, faultless_lists_are_well_formed, read_lists};
pub use net::Network;
pub use orders::check_order;
pub use refusal::{Refusal, refusals_are_told_apart};
pub use sheet_laws::{
    accepted_list_is_order, bytes_tell_networks_apart, read_network_is_written_the_same,
    same_couplings_same_meaning, width_is_smallest, written_network_returns,
};
pub use sheets::{SheetNetwork, count_couplings, read_sheet, write_sheet};

/// The next coupled station is the smallest one not below the given number.
pub fn next_is_smallest()
    ensures { NextIsSmallest }
{}

/// A sheet that is written reads as itself, one that is read is written as the same bytes,
/// and what is read is a network and one of its orders.
pub fn sheets_go_round()
    ensures written { WrittenReads }
    ensures read { ReadWrites }
    ensures well { ReadWell }
{}
