// What a line of a job came to. Bit i of `wrong` and of `missing`, bit 0 the lowest, stands for mark i of `marks`; the mark `infinity` prints as `inf`.
#[derive(Clone, Copy)]
pub enum Report<'a> {
    Accepted {
        line: u32,
        symbol: Option<u8>,
        marks: &'a [u8],
        infinity: u8,
        wrong: u32,
        missing: u32,
    },
    Refused {
        line: u32,
        number: u8,
    },
}
