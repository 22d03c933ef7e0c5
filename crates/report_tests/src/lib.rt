// Examples of reports.
#![tactic(auto)]

#[cfg(test)]
mod tests {
    use report::{Report, write_header, write_report};
    use std::process::Abort;
    use std::test::Fail;

    // Of a longer place the start is the text, and every byte past it is left.
    fn prints(rt: &impl Abort, report: &Report, text: &[u8]) -> Result<(), Fail> {
        let mut place = [7; 40];
        let count = write_report(report, &mut place).ok_or("no room")?;
        assert!(rt; count == text.len() && count <= 40);
        assert!(rt; &place[0..count] == text);
        assert!(rt; place[count..].iter().all(|byte| *byte == 7));
        Ok(())
    }

    // With the marks 1, 3, 6, 13 and infinity.
    fn accepted(line: u32, symbol: Option<u8>, wrong: u32, missing: u32) -> Report<'static> {
        Report::Accepted {
            line,
            symbol,
            marks: &[1, 3, 6, 13, 16],
            infinity: 16,
            wrong,
            missing,
        }
    }

    fn refused(line: u32, number: u8) -> Report<'static> {
        Report::Refused { line, number }
    }

    #[test]
    fn accepted_lines(rt: HostRuntime) -> Result<(), Fail> {
        prints(&rt, &accepted(4, None, 0, 0), b"4 ok - - -\n")?;
        prints(&rt, &accepted(6, Some(3), 1, 0), b"6 ok 3 1 -\n")?;
        prints(&rt, &accepted(7, Some(0), 0, 16), b"7 ok 0 - inf\n")?;
        prints(
            &rt,
            &accepted(65536, Some(15), 18, 12),
            b"65536 ok 15 3,inf 6,13\n",
        )?;
        prints(
            &rt,
            &accepted(10, None, 4_294_967_264, 31),
            b"10 ok - - 1,3,6,13,inf\n",
        )
    }

    #[test]
    fn refused_lines(rt: HostRuntime) -> Result<(), Fail> {
        prints(&rt, &refused(9, 32), b"9 32 - - -\n")?;
        prints(&rt, &refused(1, 255), b"1 255 - - -\n")
    }

    // The last of these marks would stand for bit 32.
    #[test]
    fn marks_past_the_bits(rt: HostRuntime) -> Result<(), Fail> {
        let mut marks = [5; 33];
        marks[31] = 6;
        marks[32] = 7;
        let report = Report::Accepted {
            line: 5,
            symbol: None,
            marks: &marks,
            infinity: 16,
            wrong: 2_147_483_649,
            missing: 0,
        };
        prints(&rt, &report, b"5 ok - 5,6 -\n")
    }

    #[test]
    fn place_just_long_enough(rt: HostRuntime) {
        let mut place = [7; 11];
        assert_eq!(rt;
            write_report(&accepted(4, None, 0, 0), &mut place),
            Some(11)
        );
        assert!(rt; &place[0..11] == b"4 ok - - -\n".as_slice());
    }

    #[test]
    fn place_one_byte_short(rt: HostRuntime) {
        let mut place = [7; 10];
        assert_eq!(rt; write_report(&accepted(4, None, 0, 0), &mut place), None);
        assert!(rt; place == [7; 10]);
    }

    #[test]
    fn header(rt: HostRuntime) {
        let mut place = [7; 34];
        assert_eq!(rt; write_header(&mut place[0..32]), None);
        assert!(rt; place == [7; 34]);
        assert_eq!(rt; write_header(&mut place), Some(33));
        assert!(rt; &place[0..34] == b"line result symbol wrong missing\n\x07".as_slice());
    }
}
