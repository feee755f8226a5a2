//! When a packet may be applied, and which one it waits for.
use std::test::Fail;
use sv_causal::{Readiness, ready};
use sv_effect::Op;
use sv_value::{Cut, List, Packet, Site};

/// The blue packet of a site.
fn blue(number: u8, seq: u32) -> Result<Packet, Fail> {
    let site = Site::new(number).ok_or("no site")?;
    Ok(Packet::Blue { site, seq })
}

fn early(missing: Packet) -> Readiness {
    Readiness::Early { missing }
}

/// The site has one blue operation of site 1, two of site 2 and three of site 8, and two reds.
#[test]
fn packets_wait_for_what_they_were_made_on(rt: HostRuntime) -> Result<(), Fail> {
    let cut = Cut {
        blue: [1, 2, 0, 0, 0, 0, 0, 3],
        reds: 2,
    };
    let next = blue(3, 0)?;
    let red = Packet::Red { slot: 2 };
    let cases: [([u32; 8], u32, Packet, Readiness); 12] = [
        ([0; 8], 0, next, Readiness::Now),
        ([1, 2, 0, 0, 0, 0, 0, 3], 2, next, Readiness::Now),
        ([1, 2, 0, 0, 0, 0, 0, 3], 2, red, Readiness::Now),
        ([0; 8], 0, blue(2, 1)?, Readiness::Duplicate),
        ([9; 8], 9, blue(2, 1)?, Readiness::Duplicate),
        ([0; 8], 0, blue(2, 2)?, Readiness::Now),
        ([9; 8], 9, Packet::Red { slot: 1 }, Readiness::Duplicate),
        ([9; 8], 9, next, early(blue(1, 1)?)),
        ([1, 4, 1, 0, 0, 0, 0, 9], 9, red, early(blue(2, 2)?)),
        ([1, 2, 0, 0, 0, 0, 0, 4], 9, next, early(blue(8, 3)?)),
        ([1, 2, 0, 0, 0, 0, 0, 3], 3, next, early(red)),
        ([0; 8], 9, Packet::Red { slot: 8 }, early(red)),
    ];
    for (blue, reds, packet, wanted) in cases {
        let op = Op {
            time: 7,
            site: Site::new(3).ok_or("no site")?,
            deps: Cut { blue, reds },
            effects: List::new(rt.alloc()),
            needs: List::new(rt.alloc()),
        };
        assert_eq!(rt;
            ready(&cut, &op, packet),
            wanted,
            "{packet:?} on {blue:?} {reds}"
        );
    }
    Ok(())
}
