// Numbers as groups of seven bits, and arguments as numbers.
#![tactic(auto)]

mod arguments;
mod laws;
mod numbers;

pub use arguments::{Argument, NoArgument};
pub use laws::{
    accepts_groups, arguments_come_back, codes_come_back, comes_back, one_shortest, placed,
    reads_exactly, replaces, samples, too_wide,
};
pub use numbers::{NumberFault, Whole, read, width_of, write};

#[cfg(test)]
mod tests {
    use super::*;
    use std::test::Fail;

    #[test]
    fn writes_and_reads(rt: HostRuntime) {
        let mut out = [7u8; 4];
        assert_eq!(rt; write(300, &mut out, 1), Some(3));
        assert_eq!(rt; out, [7, 0xac, 0x02, 7]);
        assert_eq!(rt; write(300, &mut out, 3), None);
        assert_eq!(rt; out, [7, 0xac, 0x02, 7]);
        assert_eq!(rt; read::<u32>(&out, 1), Ok((300, 3)));
    }

    #[test]
    fn reads_the_widest(rt: HostRuntime) {
        let wide = [0xff, 0xff, 0xff, 0xff, 0x1f];
        assert_eq!(rt;
            read::<u32>(&[0xff, 0xff, 0xff, 0xff, 0x0f], 0),
            Ok((0xffff_ffff, 5))
        );
        assert_eq!(rt; read::<u32>(&wide, 0), Err(NumberFault::Shape(0)));
        assert_eq!(rt; read::<u64>(&wide, 0), Ok((0x1_ffff_ffff, 5)));
    }

    #[test]
    fn refuses(rt: HostRuntime) {
        assert_eq!(rt; read::<u32>(&[0x80, 0x00], 0), Err(NumberFault::Shape(0)));
        assert_eq!(rt; read::<u32>(&[0xff], 0), Err(NumberFault::Short(0)));
        assert_eq!(rt; read::<u64>(&[], 3), Err(NumberFault::Short(0)));
        assert_eq!(rt; NumberFault::Short(2).number(), 19);
        assert_eq!(rt; NumberFault::Shape(2).number(), 20);
    }

    #[test]
    fn codes(rt: HostRuntime) {
        assert_eq!(rt; u64::from(Argument::Number(-1)), 2);
        assert_eq!(rt; u64::from(Argument::Number(7)), 28);
        assert_eq!(rt; Argument::try_from(63), Ok(Argument::Cell(31)));
        assert_eq!(rt; Argument::try_from(65), Err(NoArgument));
        assert_eq!(rt; Argument::try_from(2), Ok(Argument::Number(-1)));
    }

    #[test]
    fn prints(rt: HostRuntime) -> Result<(), Fail> {
        let short = format!(in rt.alloc(); "{}", NumberFault::Short(2))?;
        let shape = format!(in rt.alloc(); "{}", NumberFault::Shape(7))?;
        let none = format!(in rt.alloc(); "{}", NoArgument)?;
        assert!(rt; short.as_str() == "the number at 2 is cut short");
        assert!(rt; shape.as_str() == "the number at 7 is not in its shortest groups or too wide");
        assert!(rt; none.as_str() == "no argument has this code");
        Ok(())
    }
}
