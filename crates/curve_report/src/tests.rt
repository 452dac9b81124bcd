use crate::report::curves_text;
use std::process::Abort;
use std::test::Fail;

fn prints(rt: &(impl Abort + AllocGlobal), strip: &[u8], text: &str) -> Result<(), Fail> {
    let made = curves_text(rt.alloc(), strip)?;
    assert!(rt; made.as_str() == text);
    Ok(())
}

#[test]
fn faults_in_rows(rt: HostRuntime) -> Result<(), Fail> {
    prints(&rt, &[], "fault 7 byte 0\n")?;
    prints(&rt, &[0; 4097], "fault 8 byte 0\n")?;
    prints(&rt, &[65], "fault 8 byte 0\n")?;
    prints(&rt, &[1], "fault 7 byte 1\n")?;
    prints(&rt, &[2, 0, 0x04, 2], "fault 7 byte 2\n")?;
    prints(&rt, &[1, 0x40], "fault 9 byte 1\n")?;
    prints(&rt, &[1, 0x02, 0x05, 0xA1], "fault 10 byte 1\n")
}

#[test]
fn lines_of_curves(rt: HostRuntime) -> Result<(), Fail> {
    prints(&rt, &[0; 4096], "rows 0\n")?;
    prints(
        &rt,
        &[1, 0x1C, 0x02, 0x58, 0, 5, 0, 3, 9],
        "curve 0 first 0 last 1440 cheapest 600 cost 0\nrows 1\n",
    )?;
    prints(
        &rt,
        &[
            2, 0x1D, 0x02, 0xBC, 0x02, 0x58, 0, 1, 0, 2, 0x0E, 0, 200, 0x02, 0x58, 0, 4,
        ],
        "curve 0 first 700 last 1440 cheapest 700 cost 200\ncurve 1 first 0 last 200 cheapest 200 cost 1600\nrows 2\n",
    )
}
