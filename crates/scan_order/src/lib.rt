//! The scan chains of a circuit: which flip-flop follows which when bits are shifted in. Here are the reader of the scan file and the
//! links that a launch by the last shift sets between flip-flops.
//! Stands on pd_base, netlist and text_pieces. The layers above use `read_scan`, `Chains` and `skewed_links`, and cite `AreChainsOf`
//! (specs/Chains.antt), `scan_text` (specs/ScanFile.antt), `RefusesScan` (specs/ScanRefusals.antt) and `links_along`
//! (specs/SkewedLinks.antt).
#![tactic(auto)]

mod chains;
mod flops;
mod growing;
mod reading;
mod scan_fault;
mod skewing;

pub use chains::Chains;
pub use reading::read_scan;
pub use scan_fault::ScanFault;
pub use skewing::skewed_links;
