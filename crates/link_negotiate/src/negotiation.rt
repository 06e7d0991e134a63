ghost use Rattle.std.specs.Prelude.{◌≡◌, ◌≢◌, true, false};
ghost use Rattle.cell_codec.specs.Cells.{wire_cell};

use crate::answer::LinkAnswer;
use crate::arrival::Arrival;
use crate::greeting::{greeting, own_netinfo};
use crate::phase::LinkPhase;
use crate::reading::{read_arrival, read_versions};
use cell_codec::{Cell, LinkFault};
use std::alloc::Global;
use std::marker::Model;

/// One side's part in opening a link. Contracts see which side it is and where it stands.
#[derive(Drop)]
pub struct Negotiation {
    alloc: Global,
    opener: bool,
    phase: LinkPhase,
}

impl Model for Negotiation {
    ghost use Rattle.link_negotiate.specs.Negotiation.{Side};

    ghost Value = { Side };

    ghost view = { λ n. record { opener = n.opener; phase = n.phase } };
}

impl Negotiation {
    ghost use Rattle.link_negotiate.specs.Negotiation.{opening_side, answering_side, step_answer, side_after};
    ghost use Rattle.link_negotiate.specs.Answering.{AnswersAs};
    ghost use Rattle.link_negotiate.specs.declared.answer.LinkAnswer.TheVariants.{Memory};

    /// The side that opened the connection. It sends VERSIONS, with `OUR_VERSIONS`, first.
    pub fn opener(alloc: Global) -> Negotiation
        ensures { result ≡ opening_side }
    {
        Negotiation {
            alloc,
            opener: true,
            phase: LinkPhase::AwaitsVersions,
        }
    }

    /// The side that accepted the connection.
    pub fn answerer(alloc: Global) -> Negotiation
        ensures { result ≡ answering_side }
    {
        Negotiation {
            alloc,
            opener: false,
            phase: LinkPhase::AwaitsVersions,
        }
    }

    /// Answers the next cell that came. `OddVersions`, `NoCommonVersion` and `BadNetinfo` tell
    /// what is wrong with a cell, and `Unexpected` that it may not stand here. A refusal is
    /// repeated for every later cell, and an open link refuses each as unexpected: these are rules of
    /// this relay.
    ///
    /// Only the answer to VERSIONS that sends cells takes memory. After `Memory` the cell was not taken.
    pub fn step(&mut self, cell: &Cell) -> LinkAnswer
        ensures answer { AnswersAs result (step_answer self.old (wire_cell cell.now)) }
        ensures next { result ≢ Memory → self.new ≡ side_after self.old (wire_cell cell.now) }
        ensures memory { result ≡ Memory → self.new ≡ self.old }
    {
        match self.phase {
            LinkPhase::AwaitsVersions => match read_versions(cell) {
                Ok(version) => {
                    if self.opener {
                        self.phase = LinkPhase::AwaitsNetinfo(version);
                        return LinkAnswer::PassedOver;
                    }
                    match greeting(self.alloc) {
                        Ok(cells) => {
                            self.phase = LinkPhase::AwaitsNetinfo(version);
                            LinkAnswer::Send(cells)
                        }
                        Err(_) => LinkAnswer::Memory,
                    }
                }
                Err(fault) => {
                    self.phase = LinkPhase::Refused(fault);
                    LinkAnswer::Refused(fault)
                }
            },
            LinkPhase::AwaitsNetinfo(version) => match read_arrival(cell, version) {
                Arrival::Netinfo => {
                    self.phase = LinkPhase::Open;
                    let netinfo = if self.opener {
                        Some(own_netinfo())
                    } else {
                        None
                    };
                    LinkAnswer::Ready(version, netinfo)
                }
                Arrival::InBetween => LinkAnswer::PassedOver,
                Arrival::Fault(fault) => {
                    self.phase = LinkPhase::Refused(fault);
                    LinkAnswer::Refused(fault)
                }
            },
            LinkPhase::Open => LinkAnswer::Refused(LinkFault::Unexpected(cell.command)),
            LinkPhase::Refused(fault) => LinkAnswer::Refused(fault),
        }
    }
}
