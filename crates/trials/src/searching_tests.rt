use crate::checking_tests::{ONE_PHASE, table, toggle};
use checking::faults::SearchFault;
use checking::search::{Agreement, SearchWorkspace, search};
use games::lift::Lift;
use games::marked::Marked;
use std::alloc::Global;
use std::process::Abort;
use std::test::Fail;

/// Both promises and the tries of the deal that is found.
fn told(answer: Result<Agreement, SearchFault>) -> Result<(u32, u32, u16), SearchFault> {
    let Agreement { deal, tries } = answer?;
    Ok((deal.promise(0), deal.promise(1), tries))
}

/// The search of two watched toggles on a table.
fn searched(
    heap: Global,
    bytes: &[u8],
    allowance: u32,
) -> Result<Result<(u32, u32, u16), SearchFault>, Fail> {
    let game = toggle(heap)?;
    let mut workspace = SearchWorkspace::new(heap)?;
    let answer = search(&mut workspace, &game, &game, &table(bytes), allowance);
    Ok(told(answer))
}

#[test]
fn the_toggles_settle_on_signal_1(rt: HostRuntime) -> Result<(), Fail> {
    let heap = rt.alloc();
    assert_eq!(rt; searched(heap, &ONE_PHASE, 65_535)?, Ok((2, 2, 5)));
    assert_eq!(rt; searched(heap, &ONE_PHASE, 5)?, Ok((2, 2, 5)));
    assert_eq!(rt;
        searched(heap, &ONE_PHASE, 4)?,
        Err(SearchFault::Untried(4))
    );
    assert_eq!(rt;
        searched(heap, &ONE_PHASE, 1)?,
        Err(SearchFault::Untried(1))
    );
    Ok(())
}

#[test]
fn a_search_is_allowed_from_1_to_65535_tries(rt: HostRuntime) -> Result<(), Fail> {
    let heap = rt.alloc();
    assert_eq!(rt; searched(heap, &ONE_PHASE, 0)?, Err(SearchFault::Allowance));
    assert_eq!(rt;
        searched(heap, &ONE_PHASE, 65_536)?,
        Err(SearchFault::Allowance)
    );
    // sizes come before the allowance: the toggle has two signals each way
    assert_eq!(rt;
        searched(heap, &[1, 1, 2, 0, 0], 0)?,
        Err(SearchFault::Sizes)
    );
    Ok(())
}

/// A table of 6 phases and two signals each way: 729 promises a side.
#[test]
fn too_many_candidates_are_refused(rt: HostRuntime) -> Result<(), Fail> {
    let heap = rt.alloc();
    let mut bytes = [0; 27];
    bytes[0] = 6;
    bytes[1] = 2;
    bytes[2] = 2;
    assert_eq!(rt; searched(heap, &bytes, 65_535)?, Err(SearchFault::TooMany));
    // the allowance comes before
    assert_eq!(rt; searched(heap, &bytes, 0)?, Err(SearchFault::Allowance));
    Ok(())
}

/// A lift without marks has no goals, so that none of the 225 candidates is workable.
#[test]
fn no_deal_at_all_tells_all_candidates(rt: HostRuntime) -> Result<(), Fail> {
    let Ok(lift) = Lift::new(3, 4) else {
        return Err(Fail::new("refused"));
    };
    let lift = Marked::new(lift);
    let mut workspace = SearchWorkspace::new(rt.alloc())?;
    let mut bytes = [0; 19];
    bytes[0] = 1;
    bytes[1] = 4;
    bytes[2] = 4;
    let table = table(&bytes);
    let all = search(&mut workspace, &lift, &lift, &table, 225);
    assert_eq!(rt; told(all), Err(SearchFault::NoDeal(225)));
    let fewer = search(&mut workspace, &lift, &lift, &table, 224);
    assert_eq!(rt; told(fewer), Err(SearchFault::Untried(224)));
    Ok(())
}
