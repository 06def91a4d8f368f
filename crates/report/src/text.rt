// A price, and the bytes of a reference, as text.
ghost use Rattle.std.specs.Prelude.{Some, encode_utf8_all};
ghost use Rattle.report.specs.Text.{dollars};

use std::fmt;

// A price in ten-thousandths of a dollar.
#[derive(Clone, Copy)]
pub struct Dollars(pub u32);

impl fmt::Display for Dollars {
    ghost output = { λ price. Some (dollars price.0) };

    fn fmt<W: fmt::Write>(&self, f: &mut fmt::Formatter<W>) -> fmt::Result {
        let n = self.0;
        write!(f, "{}.{:04}", n / 10_000, n % 10_000)
    }
}

// Each byte as the character with its number.
#[derive(Clone, Copy)]
pub struct Characters<'a>(pub &'a [u8]);

impl fmt::Display for Characters<'_> {
    ghost output = { λ bytes. Some (encode_utf8_all bytes.0.now) };

    fn fmt<W: fmt::Write>(&self, f: &mut fmt::Formatter<W>) -> fmt::Result {
        for b in self.0 {
            f.write_char(char::from(*b))?;
        }
        Ok(())
    }
}
