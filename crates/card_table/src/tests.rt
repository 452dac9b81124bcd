use crate::lines::{card_text, cost_line, joined_line};
use route::stop::{Facts, Refusal};
use std::test::Fail;

const BLOCKED: Refusal = Refusal::NoTimetable { stop: 2 };

// An accepted splice and a refused one, a stop, and the least cost.
#[test]
fn card(rt: HostRuntime) -> Result<(), Fail> {
    let heap = rt.alloc();
    let stop = Facts {
        curve: 2,
        leg: 0,
        mark: 590,
        minute: 590,
    };
    let last = joined_line(heap, "refused", Ok(0))?;
    let text = card_text(
        heap,
        "refused",
        "6",
        &[Ok(()), Err(BLOCKED)],
        &[stop],
        last.as_str(),
    )?;
    assert_eq!(rt;
        text.as_str(),
        "card 6\nrefused 5 stop 2\nstop 1 curve 2 leg 0 mark 590 minute 590\nleast 0\n"
    );
    Ok(())
}

#[test]
fn refused_join(rt: HostRuntime) -> Result<(), Fail> {
    let line = joined_line(rt.alloc(), "refused", Err(BLOCKED))?;
    assert_eq!(rt; line.as_str(), "refused 5 stop 2\n");
    Ok(())
}

#[test]
fn cost_at_a_minute(rt: HostRuntime) -> Result<(), Fail> {
    let line = cost_line(rt.alloc(), 103, 5)?;
    assert_eq!(rt; line.as_str(), "minute 103 cost 5\n");
    Ok(())
}
