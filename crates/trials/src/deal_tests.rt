use crate::samples::PHASES;
use games::deal::talk::{Talk, TalkFault};
use games::deal::{Deal, Terms};
use reading::phase_table::PhaseTable;
use std::process::Abort;
use std::test::Fail;

/// How a talk ends: the refusal's number, phase and side, or zeros where a deal is signed.
fn told(table: &PhaseTable, first: (u32, u32), second: (u32, u32)) -> (u8, u16, u8) {
    match signed(table, first, second) {
        Ok(_) => (0, 0, 0),
        Err(refusal) => refusal,
    }
}

/// Number, phase and side of a refusal, once what came back is closed.
fn given_up(talk: Talk, fault: TalkFault) -> (u8, u16, u8) {
    talk.close();
    (fault.number(), fault.phase(), fault.side())
}

pub(crate) fn signed(
    table: &PhaseTable,
    first: (u32, u32),
    second: (u32, u32),
) -> Result<Deal, (u8, u16, u8)> {
    let bid = match Talk::open(table).bid(Terms {
        promise: first.0,
        reliance: first.1,
    }) {
        Ok(bid) => bid,
        Err(back) => {
            let (talk, fault) = back;
            return Err(given_up(talk, fault));
        }
    };
    let reply = match bid.reply(Terms {
        promise: second.0,
        reliance: second.1,
    }) {
        Ok(reply) => reply,
        Err(back) => {
            let (bid, fault) = back;
            bid.close();
            return Err((fault.number(), fault.phase(), fault.side()));
        }
    };
    match reply.sign() {
        Ok(deal) => Ok(deal),
        Err(back) => {
            let (talk, fault) = back;
            Err(given_up(talk, fault))
        }
    }
}

#[test]
fn one_phase(rt: HostRuntime) {
    let mut table = PhaseTable::new();
    assert!(rt; table.read(&[1, 2, 2, 0, 0, 0, 0]).is_ok());
    assert_eq!(rt; told(&table, (2, 2), (2, 2)), (0, 0, 0));
    assert_eq!(rt; told(&table, (3, 2), (3, 2)), (21, 0, 0));
    assert_eq!(rt; told(&table, (2, 2), (3, 2)), (21, 0, 1));
    assert_eq!(rt; told(&table, (3, 3), (1, 3)), (0, 0, 0));
    assert_eq!(rt; told(&table, (0, 2), (2, 2)), (20, 65535, 2));
    assert_eq!(rt; told(&table, (2, 0), (2, 2)), (20, 65535, 2));
    assert_eq!(rt; told(&table, (2, 2), (4, 2)), (20, 65535, 2));
    assert_eq!(rt; told(&table, (2, 2), (2, 4)), (20, 65535, 2));
    assert_eq!(rt; told(&table, (18, 2), (2, 2)), (20, 65535, 2));
    assert_eq!(rt; told(&table, (2, 2), (2, 2 + 65536)), (20, 65535, 2));
}

#[test]
fn two_phases(rt: HostRuntime) {
    // side 0 has one signal, side 1 has two
    let mut table = PhaseTable::new();
    assert!(rt; table.read(&PHASES).is_ok());
    assert_eq!(rt; told(&table, (17, 51), (51, 17)), (0, 0, 0));
    assert_eq!(rt; told(&table, (17, 33), (51, 17)), (21, 0, 1));
    assert_eq!(rt; told(&table, (17, 19), (51, 17)), (21, 1, 1));
    assert_eq!(rt; told(&table, (1, 51), (51, 17)), (20, 65535, 2));
    assert_eq!(rt; told(&table, (33, 51), (51, 17)), (20, 65535, 2));
}

/// A deal over two phases, of one signal with two.
fn deal(rt: &impl Abort) -> Result<Deal, Fail> {
    let mut table = PhaseTable::new();
    assert!(rt; table.read(&PHASES).is_ok());
    signed(&table, (17, 51), (35, 17)).map_err(|_| Fail::new("refused"))
}

#[test]
fn deal_says(rt: HostRuntime) -> Result<(), Fail> {
    let deal = deal(&rt)?;
    assert_eq!(rt;
        (deal.phases(), deal.signals(0), deal.signals(1)),
        (2, 1, 2)
    );
    assert_eq!(rt; (deal.promise(0), deal.reliance(0)), (17, 51));
    assert_eq!(rt; (deal.promise(1), deal.reliance(1)), (35, 17));
    Ok(())
}

#[test]
fn deal_has_signals(rt: HostRuntime) -> Result<(), Fail> {
    let deal = deal(&rt)?;
    assert!(rt; deal.promises(1, 0, 0) && deal.promises(1, 0, 1));
    assert!(rt; deal.promises(1, 1, 1) && !deal.promises(1, 1, 0));
    assert!(rt; !deal.promises(1, 0, 5) && !deal.promises(1, 2, 0));
    assert!(rt; deal.relies(0, 1, 0) && !deal.relies(0, 1, 2));
    assert!(rt; deal.relies(1, 0, 0));
    Ok(())
}

#[test]
fn eight_phases(rt: HostRuntime) {
    let mut table = PhaseTable::new();
    assert!(rt; table.read(&[8, 1, 1, 0, 0, 0, 0, 0, 0, 0, 0]).is_ok());
    let all = 0x1111_1111;
    assert_eq!(rt; told(&table, (all, all), (all, all)), (0, 0, 0));
    assert_eq!(rt;
        told(&table, (all, all), (all, all + 0x1000_0000)),
        (20, 65535, 2)
    );
}
