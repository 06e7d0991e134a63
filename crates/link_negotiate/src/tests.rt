use crate::{LinkAnswer, LinkFault, Negotiation};
use cell_codec::{Body, Bytes, Cell, Decoder, command};
use std::alloc::{AllocError, Global};
use std::test::Fail;

fn versions(alloc: Global, payload: &[u8]) -> Result<Cell, AllocError> {
    Ok(Cell {
        circ: 0,
        command: command::VERSIONS,
        body: Body::Var(Bytes::of(alloc, payload)?),
    })
}

fn netinfo(addresses: [u8; 8]) -> Cell {
    let mut payload = [0; 509];
    payload[4..12].copy_from_slice(&addresses);
    Cell {
        circ: 0,
        command: command::NETINFO,
        body: Body::Fixed(payload),
    }
}

/// The fault of a refusal.
fn fault(answer: LinkAnswer) -> Option<LinkFault> {
    match answer {
        LinkAnswer::Refused(fault) => Some(fault),
        _ => None,
    }
}

#[test]
fn two_sides_open_a_link(rt: HostRuntime) -> Result<(), Fail> {
    let mut opener = Negotiation::opener(rt.alloc());
    let mut answerer = Negotiation::answerer(rt.alloc());
    let offer = versions(rt.alloc(), &[0, 3, 0, 4, 0, 5])?;
    match answerer.step(&offer) {
        LinkAnswer::Send(cells) => {
            assert_eq!(rt; cells.len(), 2);
            let sent_cells = cells.as_slice();
            assert_eq!(rt; sent_cells[0].body.payload(), [0, 4, 0, 5].as_slice());
            let netinfo_payload = sent_cells[1].body.payload();
            assert_eq!(rt; netinfo_payload.len(), 509);
            assert_eq!(rt;
                &netinfo_payload[..12],
                [0, 0, 0, 0, 4, 4, 0, 0, 0, 0, 0, 0].as_slice()
            );
            assert!(rt; matches!(opener.step(&sent_cells[0]), LinkAnswer::PassedOver));
            match opener.step(&sent_cells[1]) {
                LinkAnswer::Ready(5, Some(own)) => {
                    assert!(rt; matches!(answerer.step(&own), LinkAnswer::Ready(5, None)));
                }
                _ => assert!(rt; false),
            }
        }
        _ => assert!(rt; false),
    }
    assert_eq!(rt;
        fault(opener.step(&offer)),
        Some(LinkFault::Unexpected(command::VERSIONS))
    );
    Ok(())
}

#[test]
fn a_link_opens_by_its_bytes(rt: HostRuntime) -> Result<(), Fail> {
    let mut bytes = Vec::new(rt.alloc());
    bytes.extend_from_slice(b"\0\0\x07\0\x06\0\x03\0\x04\0\x05")?;
    bytes.extend_from_slice(b"\0\0\0\0\x08\0\0\0\0\x04\x04")?;
    bytes.extend_from_slice(&[0; 503])?;
    let mut side = Negotiation::answerer(rt.alloc());
    let mut sent_count = 0;
    let mut version = None;
    for cell in Decoder::starting(rt.alloc())
        .feed(bytes.as_slice())?
        .as_slice()
    {
        match side.step(cell) {
            LinkAnswer::Send(cells) => sent_count = cells.len(),
            LinkAnswer::Ready(agreed_version, _netinfo) => version = Some(agreed_version),
            _other => assert!(rt; false),
        }
    }
    assert_eq!(rt; (sent_count, version), (2, Some(5)));
    Ok(())
}

#[test]
fn protocol_4_is_taken_of_a_peer_that_speaks_no_higher_one(rt: HostRuntime) -> Result<(), Fail> {
    let offer = versions(rt.alloc(), &[0, 4])?;
    let netinfo_cell = netinfo([4, 4, 0, 0, 0, 0, 0, 0]);

    let mut answerer = Negotiation::answerer(rt.alloc());
    match answerer.step(&offer) {
        LinkAnswer::Send(cells) => {
            let sent_cells = cells.as_slice();
            assert_eq!(rt; sent_cells.len(), 2);
            assert_eq!(rt; sent_cells[0].command, command::VERSIONS);
            assert_eq!(rt; sent_cells[0].body.payload(), [0, 4, 0, 5].as_slice());
            assert_eq!(rt; sent_cells[1].command, command::NETINFO);
        }
        _ => assert!(rt; false),
    }
    assert!(rt; matches!(answerer.step(&netinfo_cell), LinkAnswer::Ready(4, None)));

    let mut opener = Negotiation::opener(rt.alloc());
    assert!(rt; matches!(opener.step(&offer), LinkAnswer::PassedOver));
    assert!(rt; matches!(opener.step(&netinfo_cell), LinkAnswer::Ready(4, Some(_))));
    Ok(())
}

#[test]
fn padding_is_negotiated_from_protocol_5_on(rt: HostRuntime) -> Result<(), Fail> {
    let negotiation = Cell {
        circ: 0,
        command: command::PADDING_NEGOTIATE,
        body: Body::Fixed([0; 509]),
    };
    let mut side = Negotiation::opener(rt.alloc());
    assert!(rt; fault(side.step(&versions(rt.alloc(), &[0, 5])?)).is_none());
    assert!(rt; matches!(side.step(&negotiation), LinkAnswer::PassedOver));

    let mut side = Negotiation::opener(rt.alloc());
    assert!(rt; fault(side.step(&versions(rt.alloc(), &[0, 4])?)).is_none());
    assert_eq!(rt;
        fault(side.step(&negotiation)),
        Some(LinkFault::Unexpected(command::PADDING_NEGOTIATE))
    );
    Ok(())
}

#[test]
fn refusals_have_their_names_and_stay(rt: HostRuntime) -> Result<(), Fail> {
    for (payload, want) in [
        ([0, 4, 0].as_slice(), LinkFault::OddVersions),
        ([0, 3].as_slice(), LinkFault::NoCommonVersion),
        ([].as_slice(), LinkFault::NoCommonVersion),
    ] {
        let mut side = Negotiation::answerer(rt.alloc());
        let cell = versions(rt.alloc(), payload)?;
        assert_eq!(rt; fault(side.step(&cell)), Some(want));
        assert_eq!(rt;
            fault(side.step(&netinfo([4, 4, 0, 0, 0, 0, 0, 0]))),
            Some(want)
        );
    }
    for (addresses, want) in [
        ([4, 4, 127, 0, 0, 1, 0, 0], None),
        ([9, 1, 5, 1, 6, 16, 0, 0], None),
        ([4, 4, 127, 0, 0, 1, 1, 4], Some(LinkFault::BadNetinfo)),
        ([4, 3, 127, 0, 0, 0, 0, 0], Some(LinkFault::BadNetinfo)),
        ([6, 4, 127, 0, 0, 1, 0, 0], Some(LinkFault::BadNetinfo)),
    ] {
        let mut side = Negotiation::opener(rt.alloc());
        let early = side.step(&netinfo(addresses));
        assert_eq!(rt; fault(early), Some(LinkFault::Unexpected(command::NETINFO)));
        let mut side = Negotiation::opener(rt.alloc());
        assert!(rt; fault(side.step(&versions(rt.alloc(), &[0, 4])?)).is_none());
        assert_eq!(rt; fault(side.step(&netinfo(addresses))), want);
    }
    Ok(())
}
