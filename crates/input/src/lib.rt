// Reading of typed lines: bytes in, numbers out. A line ends with a line feed. A numeral is one or more
// decimal digits, and a value above 255 counts as 255.
#![tactic(auto)]

pub mod lines;
pub mod numbers;
mod numeral;
pub mod orders;
pub mod products;
pub mod source;

#[cfg(test)]
mod tests {
    use crate::lines::split_line;
    use crate::numbers::read_numbers;
    use crate::orders::{Orders, read_orders};
    use std::test::Fail;

    #[test]
    fn reads_orders(rt: HostRuntime) {
        assert_eq!(rt; read_orders(b"007"), Some(Orders::One(7)));
        assert_eq!(rt; read_orders(b"3x5"), Some(Orders::Two(3, 5)));
        assert_eq!(rt; read_orders(b"3x3x300"), Some(Orders::Three(3, 3, 255)));
        assert_eq!(rt; read_orders(b""), None);
        assert_eq!(rt; read_orders(b"x7"), None);
        assert_eq!(rt; read_orders(b"3x3x3x3"), None);
        assert_eq!(rt; read_orders(b"3 x 5"), None);
    }

    #[test]
    fn reads_numbers(rt: HostRuntime) -> Result<(), Fail> {
        assert_eq!(rt;
            read_numbers(rt.alloc(), b" 1  300 ")?,
            Some([1, 255].to_vec(rt.alloc())?)
        );
        assert_eq!(rt;
            read_numbers(rt.alloc(), b"  ")?,
            Some(Vec::new(rt.alloc()))
        );
        assert_eq!(rt; read_numbers(rt.alloc(), b"1,3")?, None);
        Ok(())
    }

    #[test]
    fn splits_lines(rt: HostRuntime) {
        assert_eq!(rt;
            split_line(b"3x5\n1 2\n"),
            Some((&b"3x5"[..], &b"1 2\n"[..]))
        );
        assert_eq!(rt; split_line(b"\n"), Some((&b""[..], &b""[..])));
        assert_eq!(rt; split_line(b"3x5"), None);
    }
}
