//! The run of an input through all ports of a profile, and into their outputs. It stands on `pkt_receive` for the packets,
//! on `meter_table` for their colours, on `port_egress` for a port and its output, on `port_files` for the outputs' files
//! and on `qos_words` for their names.
//!
//! It promises for each port that its journal is the paced journal of the input's admitted packets for that port, and that
//! its output is what the journal's schedule sends; one output's fault touches no other. It promises for each meter that its
//! log is legal and has one mark for each record that reaches it.
#![tactic(auto)]

mod logs;
mod outputs;
mod ports;
mod prepare;

pub use outputs::{RunEnd, run_outputs};
pub use ports::run_ports;
